//! A block among bytes that several hold.

ghost use Rattle.std.specs.Prelude.{◌≡◌, ◌≤◌, ◌+◌, length, take, drop, IfOk};

use crate::shared_bytes::SharedBytes;
use xfs_disk::{BLOCK_SIZE, NoMemory};

/// The 4096 bytes from a place on.
#[derive(Drop)]
pub struct Piece {
    pub bytes: SharedBytes,
    pub at: usize,
}

/// The bytes of a block.
pub fn block_of(piece: &Piece) -> &[u8]
    requires { piece.now.at + 4096 ≤ length piece.now.bytes }
    ensures block { result.now ≡ take 4096 (drop piece.now.at piece.now.bytes) }
    ensures size { length result.now ≡ 4096 }
{
    &piece.bytes.bytes()[piece.at..piece.at + BLOCK_SIZE]
}

/// The same block, for one more holder.
pub fn share_piece(piece: &Piece) -> Result<Piece, NoMemory>
    ensures { IfOk result (λ shared. shared ≡ piece.now) }
{
    let bytes = piece.bytes.share()?;
    Ok(Piece {
        bytes,
        at: piece.at,
    })
}

//! Records of the free space trees.

ghost use Rattle.std.specs.Prelude.{◌≡◌, length};
ghost use Rattle.xfs_kinds.specs.Spans.{span_at_bytes, span_bytes};

use crate::layouts::span::{COUNT, START};
use xfs_geom::Span;
use xfs_word::{get32, put32};

/// The run in its 8 bytes.
pub fn read_span(bytes: &[u8]) -> Span
    requires { length bytes.now ≡ 8 }
    ensures { result ≡ span_at_bytes bytes.now }
{
    Span {
        start: get32(bytes, START.offset),
        count: get32(bytes, COUNT.offset),
    }
}

/// Writes a run into its 8 bytes.
pub fn put_span(span: &Span, bytes: &mut [u8])
    requires { length bytes.old ≡ 8 }
    ensures { bytes.new ≡ span_bytes span.now }
{
    put32(bytes, START.offset, span.start);
    put32(bytes, COUNT.offset, span.count);
}

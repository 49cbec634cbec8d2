//! The files of a new volume: a library has the protofile that says them, and their bytes; or they are generated.

ghost use Rattle.std.specs.Prelude.{◌≡◌, ◌<◌, ◌≤◌, ℕ, length, Ok, Some, IfErr, IfOk};
ghost use Rattle.std.specs.Option.{ForSome};
ghost use Rattle.xfs_filled.specs.FileTrees.{node_at};
ghost use Rattle.xfs_mkfs.specs.Sharing.{AreContents};
ghost use Rattle.xfs_mkfs.specs.FilesAsked.{AreGenerated, HasFilesCause, IsAsked, IsByProto, IsContentAnswer, IsContentsAnswer, IsFilesAnswer, IsProtoAnswer, IsReadByProto, content_in, contents_in, library_outcome, proto_outcome};

use crate::outcome::MakeOutcome;
use crate::sharing::{content_before, list_firsts};
use std::alloc::Global;
use xfs_disk::{Library, LibraryFault, NoMemory, Word};
use xfs_filled::{Content, protofiles_are_files};
use xfs_generator::{generate, generated_files_are_files};
use xfs_options::MakeOptions;
use xfs_proto::{ProtoFault, ProtoKind, ProtoNode, read_proto};
use xfs_volume::Records;

/// The files that a volume gets.
#[derive(Drop)]
pub enum FilesAsked {
    /// None but its root.
    Root,
    /// Those of a protofile, or generated ones.
    Listed {
        nodes: Records<ProtoNode>,
        /// Of each file its bytes; none of one that is not regular.
        contents: Records<Content>,
    },
}

/// The files that are asked for: generated ones, those of the protofile of this name, or none. The library is not asked for
/// generated ones.
pub fn read_files<L: Library>(
    alloc: Global,
    files: &mut L,
    options: &MakeOptions,
) -> Result<FilesAsked, MakeOutcome>
    requires generate { ForSome options.now.generate (λ n. n ≤ 100000) }
    ensures asked { IfOk result (IsAsked options.now (L.files files.old)) }
    ensures refusal { IfErr result (IsFilesAnswer options.now (L.files files.old)) }
    ensures cause { HasFilesCause (L.faults files.old) (L.faults files.new) result }
    ensures files { L.files files.new ≡ L.files files.old }
    ensures unasked { ForSome options.now.generate (λ n. files.new ≡ files.old) }
{
    match options.generate {
        Some(count) => generate_files(alloc, count),
        None => read_named(alloc, files, &options.proto),
    }
}

/// So many generated files.
fn generate_files(alloc: Global, count: u32) -> Result<FilesAsked, MakeOutcome>
    requires few { count ≤ 100000 }
    ensures asked { IfOk result (AreGenerated count) }
    ensures refusal { IfErr result (λ outcome. outcome ≡ MakeOutcome.NoMemory) }
    ensures cause { (faults : ℕ) → HasFilesCause faults faults result }
{
    generated_files_are_files(count);
    match generate(alloc, count) {
        Ok(generated) => Ok(FilesAsked::Listed {
            nodes: generated.nodes,
            contents: generated.contents,
        }),
        Err(NoMemory) => Err(MakeOutcome::NoMemory),
    }
}

/// The files of the protofile of this name, or none but the root.
fn read_named<L: Library>(
    alloc: Global,
    files: &mut L,
    proto: &Option<Word>,
) -> Result<FilesAsked, MakeOutcome>
    ensures asked { IfOk result (IsReadByProto proto.now (L.files files.old)) }
    ensures refusal { IfErr result (IsProtoAnswer proto.now (L.files files.old)) }
    ensures cause { HasFilesCause (L.faults files.old) (L.faults files.new) result }
    ensures files { L.files files.new ≡ L.files files.old }
{
    match proto {
        Some(name) => read_listed(alloc, files, name),
        None => Ok(FilesAsked::Root),
    }
}

/// The files of the protofile of this name.
fn read_listed<L: Library>(
    alloc: Global,
    files: &mut L,
    name: &Word,
) -> Result<FilesAsked, MakeOutcome>
    ensures asked { IfOk result (IsReadByProto (Some name.now) (L.files files.old)) }
    ensures refusal { IfErr result (IsProtoAnswer (Some name.now) (L.files files.old)) }
    ensures cause { HasFilesCause (L.faults files.old) (L.faults files.new) result }
    ensures files { L.files files.new ≡ L.files files.old }
{
    let text = match files.file(alloc, name) {
        Ok(text) => text,
        Err(fault) => return Err(library_outcome(fault, 0)),
    };
    let nodes = match read_proto(alloc, &text) {
        Ok(proto) => proto.nodes,
        Err(fault) => return Err(proto_outcome(fault)),
    };
    let contents = match read_contents(alloc, files, nodes.as_slice()) {
        Ok(contents) => contents,
        Err(outcome) => return Err(outcome),
    };
    protofiles_are_files(&text, nodes.as_slice());
    Ok(FilesAsked::Listed {
        nodes,
        contents: Records::from_vec(contents),
    })
}

/// The bytes of each file. The library is asked once for each name.
fn read_contents<L: Library>(
    alloc: Global,
    files: &mut L,
    nodes: &[ProtoNode],
) -> Result<Vec<Content>, MakeOutcome>
    ensures value { IfOk result (λ all. ForSome (L.files files.old) (λ map. contents_in map nodes.now ≡ Ok all.items)) }
    ensures count { IfOk result (λ all. length all.items ≡ length nodes.now) }
    ensures refusal { IfErr result (IsContentsAnswer (L.files files.old) nodes.now) }
    ensures cause { HasFilesCause (L.faults files.old) (L.faults files.new) result }
    ensures files { L.files files.new ≡ L.files files.old }
{
    let firsts = match list_firsts(alloc, nodes) {
        Ok(firsts) => firsts,
        Err(NoMemory) => return Err(MakeOutcome::NoMemory),
    };
    let mut contents = Vec::new(alloc);
    for k in 0..nodes.len() {
        let bytes = match content_of(alloc, files, nodes, contents.as_slice(), k, firsts[k]) {
            Ok(bytes) => bytes,
            Err(outcome) => return Err(outcome),
        };
        match contents.push(bytes) {
            Ok(()) => {}
            Err(_) => return Err(MakeOutcome::NoMemory),
        }
    }
    Ok(contents)
}

/// The bytes of the file at a place, where those of the files before it were read: the ones of the first file that may have the
/// same name in the library, where it has it, and else those that the library gives.
fn content_of<L: Library>(
    alloc: Global,
    files: &mut L,
    nodes: &[ProtoNode],
    contents: &[Content],
    k: usize,
    first: usize,
) -> Result<Content, MakeOutcome>
    requires inside { k < length nodes.now }
    requires few { length contents.now ≤ length nodes.now }
    ensures value { IfOk result (λ bytes. ForSome (L.files files.old) (λ map.
        AreContents map nodes.now contents.now → content_in map (node_at nodes.now k).kind ≡ Some bytes)) }
    ensures refusal { IfErr result (IsContentAnswer (L.files files.old) (node_at nodes.now k).kind) }
    ensures cause { HasFilesCause (L.faults files.old) (L.faults files.new) result }
    ensures files { L.files files.new ≡ L.files files.old }
{
    match content_before(nodes, contents, k, first) {
        Ok(Some(bytes)) => Ok(bytes),
        Ok(None) => read_content(alloc, files, &nodes[k].kind),
        Err(NoMemory) => Err(MakeOutcome::NoMemory),
    }
}

/// The bytes of a file.
fn read_content<L: Library>(
    alloc: Global,
    files: &mut L,
    kind: &ProtoKind,
) -> Result<Content, MakeOutcome>
    ensures value { IfOk result (λ bytes. ForSome (L.files files.old) (λ map. content_in map kind.now ≡ Some bytes)) }
    ensures refusal { IfErr result (IsContentAnswer (L.files files.old) kind.now) }
    ensures cause { HasFilesCause (L.faults files.old) (L.faults files.new) result }
    ensures files { L.files files.new ≡ L.files files.old }
{
    match kind {
        ProtoKind::Regular { name, line } => match files.file(alloc, name) {
            Ok(bytes) => held(alloc, bytes),
            Err(fault) => Err(library_outcome(fault, *line)),
        },
        _ => held(alloc, Vec::new(alloc)),
    }
}

/// These bytes, to be held by several files.
fn held(alloc: Global, bytes: Vec<u8>) -> Result<Content, MakeOutcome>
    ensures value { IfOk result (λ content. content ≡ bytes.items) }
    ensures refusal { IfErr result (λ outcome. outcome ≡ MakeOutcome.NoMemory) }
{
    match Content::make(alloc, bytes) {
        Ok(content) => Ok(content),
        Err(NoMemory) => Err(MakeOutcome::NoMemory),
    }
}

/// The answer where a library gives no file for the name in a line of the protofile, or for the protofile in line 0.
fn library_outcome(fault: LibraryFault, line: u64) -> MakeOutcome
    ensures { result ≡ library_outcome fault line }
{
    match fault {
        LibraryFault::Missing => MakeOutcome::NoFile { line },
        LibraryFault::Failed => MakeOutcome::LibraryFault,
        LibraryFault::NoMemory => MakeOutcome::NoMemory,
    }
}

/// The answer where a text is no protofile.
fn proto_outcome(fault: ProtoFault) -> MakeOutcome
    ensures { result ≡ proto_outcome fault }
{
    match fault {
        ProtoFault::Bad { line, reason } => MakeOutcome::BadProto { line, reason },
        ProtoFault::NoMemory => MakeOutcome::NoMemory,
    }
}

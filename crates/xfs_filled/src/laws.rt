//! What a protofile says can be planned.

ghost use Rattle.xfs_proto.specs.Grammar.{IsProtofile};
ghost use Rattle.xfs_proto.specs.Tokens.{tokens_of};
ghost use Rattle.xfs_filled.specs.FileTrees.{AreProtoNodes};

use xfs_proto::ProtoNode;

/// The files that `read_proto` reads of a text are such as `plan_filled` asks for. It does nothing.
pub fn protofiles_are_files(_text: &[u8], _nodes: &[ProtoNode])
    requires { IsProtofile (tokens_of _text.now) _nodes.now }
    ensures { AreProtoNodes _nodes.now }
{}

//! Laws about names. The function does nothing; its contract is the laws.

ghost use Rattle.xfs_settled.specs.Laws.Names.{NamesAreOneCuts, NamesAreOneDue, NamesAreOneWanted};

/// What is known of a volume in which a name has to change is given by what its rebuild goes by (`due`), and the names that are
/// wanted by this and by where lost+found stands (`wanted`). Runs that have some blocks each are shared out among what is asked for in
/// one way (`cuts`).
pub fn names_are_one()
    ensures due { NamesAreOneDue }
    ensures wanted { NamesAreOneWanted }
    ensures cuts { NamesAreOneCuts }
{}

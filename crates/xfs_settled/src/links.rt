//! A law about the numbers of links that are wanted. The function does nothing; its contract is the law.

ghost use Rattle.xfs_settled.specs.Laws.Links.{SettledLinksFit};

/// Where directories can be built of the names that are wanted, 32 bits hold the number of links of each file.
pub fn settled_links_fit()
    ensures { SettledLinksFit }
{}

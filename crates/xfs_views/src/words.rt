//! Laws that say in words what definitions by cases demand. Each function does nothing; its contract is the law.

ghost use Rattle.std.specs.Prelude.{◌≡◌, ◌↔◌, ℕ, true, List, Option};
ghost use Rattle.xfs_word.specs.declared.extents.Extent.{Extent};
ghost use Rattle.xfs_disk.specs.Blocks.{Image};
ghost use Rattle.xfs_geom.specs.Volumes.{Volume};
ghost use Rattle.xfs_tree.specs.Reading.{Contents};
ghost use Rattle.xfs_dirindex.specs.Block.{is_whole_block};
ghost use Rattle.xfs_dirindex.specs.Leaf.{is_whole_leaf};
ghost use Rattle.xfs_dirindex.specs.Mapped.{Mapped};
ghost use Rattle.xfs_dirindex.specs.Node.{is_whole_node};
ghost use Rattle.xfs_volume.specs.declared.files.FileRec.{FileRec};
ghost use Rattle.xfs_inode.specs.Files.{file_read};
ghost use Rattle.xfs_image.specs.Directories.{is_whole};
ghost use Rattle.xfs_views.specs.DirectoriesInWords.{IsLeafForm, IsNodeForm, IsSingleForm, IsWholeDirectory};
ghost use Rattle.xfs_views.specs.FilesInWords.{IsReadFile};

use xfs_inode::FileRead;

/// A directory is whole where the words say so, and nowhere else: the forms of one block, of one leaf and of a tree, by their
/// mapped blocks, and a directory of an image in any form.
pub fn whole_directories_in_words()
    ensures single { (dir size : ℕ) (ms : List Mapped) → (is_whole_block dir size ms ≡ true) ↔ IsSingleForm dir size ms }
    ensures leaf { (dir size : ℕ) (ms : List Mapped) → (is_whole_leaf dir size ms ≡ true) ↔ IsLeafForm dir size ms }
    ensures node { (dir size : ℕ) (ms : List Mapped) → (is_whole_node dir size ms ≡ true) ↔ IsNodeForm dir size ms }
    ensures whole { (v : Volume) (image : Image) (f : FileRec) → (is_whole v image f ≡ true) ↔ IsWholeDirectory v image f }
{}

/// A slot reads as a file, with the tree of extents, the block of attributes and that of a symbolic link that it names, where the
/// words say so, and nowhere else.
pub fn files_in_words()
    ensures file { (v : Volume) (ino : ℕ) (slot : List ℕ) (tree : Option (Contents Extent)) (attr_leaf link : Option (List ℕ)) (file : FileRec) → (file_read v ino slot tree attr_leaf link ≡ FileRead.File file) ↔ IsReadFile v ino slot tree attr_leaf link file }
{}

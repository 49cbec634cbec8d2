//! Small worlds with their root at 128, and the names that they are to have.
//!
//! In a row stand what the world is: its files with their types, its entries (the directory, the file, the type that is
//! stated, the name) and what was found of its directories (the directory, the parent that it states, whether it is whole),
//! with commas between them, and the first inodes of its clusters. Then stand where lost+found is placed, the number of a new
//! one, or else one that no file has; and, with two blanks between them, the entries that are wanted with their types, the
//! directories with their parents, the files with their links, and the directories that are built anew.

pub const WORLDS: &str = "\
nothing is lost | 128 4, 129 8, 130 8, 131 8 | 128 131 1 a | 128 128 true | 128 | Unneeded | 132 | 128 131 1 a | 128 128 | 128 2  129 1  130 1  131 1 |
a type that is not stated is right | 128 4, 131 8 | 128 131 0 a | 128 128 true | 128 | Unneeded | 132 | 128 131 1 a | 128 128 | 128 2  131 1 |
a type that is wrong | 128 4, 131 8 | 128 131 2 a | 128 128 true | 128 | Unneeded | 132 | 128 131 1 a | 128 128 | 128 2  131 1 | 128
each kind of file | 128 4, 131 8, 132 4, 133 2, 134 6, 135 1, 136 12, 137 10 | 128 131 0 a, 128 132 0 b, 128 133 0 c, 128 134 0 d, 128 135 0 e, 128 136 0 f, 128 137 0 g | 128 128 true, 132 128 true | 128 | Unneeded | 138 | 128 131 1 a  128 132 2 b  128 133 3 c  128 134 4 d  128 135 5 e  128 136 6 f  128 137 7 g | 128 128  132 128 | 128 3  131 1  132 2  133 1  134 1  135 1  136 1  137 1 |
an orphan whose number is taken in lost+found | 128 4, 131 4, 140 8, 141 8 | 128 131 2 lost+found, 131 141 1 140 | 128 128 true, 131 128 true | 128 | Old(131) | 132 | 128 131 2 lost+found  131 141 1 140  131 140 1 140.1 | 128 128  131 128 | 128 3  131 2  140 1  141 1 | 131
a cycle of two, and a slot is free | 128 4, 150 4, 151 4 | 150 151 2 x, 151 150 2 y | 128 128 true, 150 151 true, 151 150 true | 128 | Slot(131) | 131 | 128 131 2 lost+found  131 150 2 150  150 151 2 x | 128 128  131 128  150 131  151 150 | 128 3  131 3  150 3  151 2 | 128 131 150 151
a cycle of two, and no slot is free | 128 4, 150 4, 151 4 | 150 151 2 x, 151 150 2 y | 128 128 true, 150 151 true, 151 150 true | | Cluster | 512 | 128 512 2 lost+found  150 151 2 x  512 150 2 150 | 128 128  150 512  151 150  512 128 | 128 3  150 3  151 2  512 3 | 128 150 151 512
a second name of a directory | 128 4, 150 4 | 128 150 2 a, 128 150 2 b | 128 128 true, 150 128 true | 128 | Unneeded | 131 | 128 150 2 a | 128 128  150 128 | 128 3  150 2 | 128
names in two directories | 128 4, 150 4, 151 4 | 128 150 2 a, 128 151 2 b, 151 150 2 c | 128 128 true, 150 128 true, 151 128 true | 128 | Unneeded | 131 | 128 150 2 a  128 151 2 b | 128 128  150 128  151 128 | 128 4  150 2  151 2 | 151
a wrong parent | 128 4, 150 4 | 128 150 2 a | 128 128 true, 150 151 true | 128 | Unneeded | 131 | 128 150 2 a | 128 128  150 128 | 128 3  150 2 | 150
a wrong parent of the root | 128 4 | | 128 150 true | 128 | Unneeded | 131 | | 128 128 | 128 2 | 128
equal names | 128 4, 140 8, 141 8 | 128 140 1 a, 128 141 1 a | 128 128 true | 128 | Slot(131) | 131 | 128 140 1 a  128 131 2 lost+found  131 141 1 141 | 128 128  131 128 | 128 3  131 2  140 1  141 1 | 128 131
names that no file can have | 128 4, 140 8, 141 8 | 128 140 1 /, 128 141 1 a/b | 128 128 true | 128 | Slot(131) | 131 | 128 131 2 lost+found  131 140 1 140  131 141 1 141 | 128 128  131 128 | 128 3  131 2  140 1  141 1 | 128 131
a file named lost+found | 128 4, 140 8, 141 8 | 128 140 1 lost+found | 128 128 true | 128 | Slot(131) | 131 | 128 131 2 lost+found  131 140 1 140  131 141 1 141 | 128 128  131 128 | 128 3  131 2  140 1  141 1 | 128 131
a file named lost+found, and nothing is lost | 128 4, 140 8 | 128 140 1 lost+found | 128 128 true | 128 | Unneeded | 131 | 128 140 1 lost+found | 128 128 | 128 2  140 1 |
orphans behind the entries of lost+found | 128 4, 131 4, 140 8, 141 8, 142 8 | 128 131 2 lost+found, 131 142 1 z, 131 141 1 a | 128 128 true, 131 128 true | 128 | Old(131) | 132 | 128 131 2 lost+found  131 142 1 z  131 141 1 a  131 140 1 140 | 128 128  131 128 | 128 3  131 2  140 1  141 1  142 1 | 131
lost+found with the number of an orphan's namesake | 128 4, 131 4, 140 8, 141 8, 142 8 | 128 131 2 lost+found, 131 142 1 141 | 128 128 true, 131 128 true | 128 | Old(131) | 132 | 128 131 2 lost+found  131 142 1 141  131 140 1 140  131 141 1 141.1 | 128 128  131 128 | 128 3  131 2  140 1  141 1  142 1 | 131
a root that was lost | 128 4, 140 8, 150 4, 151 4 | 150 151 2 a, 151 140 1 b | 150 128 true, 151 150 true | 128 | Slot(131) | 131 | 128 131 2 lost+found  131 150 2 150  150 151 2 a  151 140 1 b | 128 128  131 128  150 131  151 150 | 128 3  131 3  140 1  150 3  151 2 | 128 131 150
a directory that is not whole keeps its entries | 128 4, 140 8, 141 8, 150 4 | 128 150 2 d, 150 140 1 x, 150 141 1 y | 128 128 true, 150 128 false | 128 | Unneeded | 131 | 128 150 2 d  150 140 1 x  150 141 1 y | 128 128  150 128 | 128 3  140 1  141 1  150 2 | 150
a file that was lost with its name is given one link | 128 4, 140 8 | | 128 128 true | 128 | Slot(131) | 131 | 128 131 2 lost+found  131 140 1 140 | 128 128  131 128 | 128 3  131 2  140 1 | 128 131
two names of a file | 128 4, 140 8 | 128 140 1 a, 128 140 1 b | 128 128 true | 128 | Unneeded | 131 | 128 140 1 a  128 140 1 b | 128 128 | 128 2  140 2 |
a name of a file that is not kept | 128 4 | 128 140 1 a | 128 128 true | 128 | Unneeded | 131 | | 128 128 | 128 2 | 128
system inodes are never lost | 128 4, 129 8, 130 8 | 128 129 1 a | 128 128 true | 128 | Unneeded | 131 | | 128 128 | 128 2  129 1  130 1 | 128
a slot of a later cluster | 128 4, 192 8 | | 128 128 true | 160 192 | Slot(160) | 160 | 128 160 2 lost+found  160 192 1 192 | 128 128  160 128 | 128 3  160 2  192 1 | 128 160
a directory with a lesser number than the root | 100 4, 128 4 | | 100 128 true, 128 128 true | 128 | Slot(131) | 131 | 128 131 2 lost+found  131 100 2 100 | 100 131  128 128  131 128 | 100 2  128 3  131 3 | 100 128 131
a new lost+found before the root | 128 4, 140 8 | | 128 128 true | 64 | Slot(64) | 64 | 64 140 1 140  128 64 2 lost+found | 64 128  128 128 | 64 2  128 3  140 1 | 64 128
";

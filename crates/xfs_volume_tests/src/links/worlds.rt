//! Small worlds with their root at 128, and what becomes of their names.
//!
//! In a row stand what the world is, its files with their types and its entries (the directory, the file, the type that
//! is stated, the name), with commas between them; and then, with two blanks between them, the entries that stay, the
//! directories with their parents, the orphans with their names, and at last `lost+found` or `-`.

pub const WORLDS: &str = "\
a root alone | 128 4 | | | 128 128 | | -
an orphan whose number is taken in lost+found | 128 4, 131 4, 140 8, 141 8 | 128 131 0 lost+found, 131 141 0 140 | 128 131 lost+found  131 141 140 | 128 128  131 128 | 140 140.1 | 131
a cycle of two | 128 4, 150 4, 151 4 | 150 151 0 x, 151 150 0 y | 150 151 x | 128 128  151 150 | 150 150 | -
a cycle of one | 128 4, 150 4 | 150 150 0 x | | 128 128 | 150 150 | -
a cycle of three | 128 4, 150 4, 151 4, 152 4 | 150 151 0 x, 151 152 0 y, 152 150 0 z | 150 151 x  151 152 y | 128 128  151 150  152 151 | 150 150 | -
a directory with two names in one directory | 128 4, 150 4 | 128 150 0 a, 128 150 0 b | 128 150 a | 128 128  150 128 | | -
a directory with names in two directories | 128 4, 150 4, 151 4 | 128 150 0 a, 128 151 0 b, 151 150 0 c | 128 150 a  128 151 b | 128 128  150 128  151 128 | | -
first in, first out | 128 4, 150 4, 151 4, 152 4 | 128 151 0 b, 128 150 0 a, 150 152 0 c, 151 152 0 d | 128 151 b  128 150 a  151 152 d | 128 128  150 128  151 128  152 151 | | -
directories of one level before those of the next | 128 4, 150 4, 151 4, 152 4, 153 4 | 128 150 0 a, 128 151 0 b, 150 152 0 c, 151 153 0 d, 152 153 0 e | 128 150 a  128 151 b  150 152 c  151 153 d | 128 128  150 128  151 128  152 150  153 151 | | -
equal names | 128 4, 140 8, 141 8 | 128 140 0 a, 128 141 0 a | 128 140 a | 128 128 | 141 141 | -
equal names of which the first names no file | 128 4, 141 8 | 128 999 0 a, 128 141 0 a | 128 141 a | 128 128 | | -
equal names in two directories | 128 4, 131 4, 140 8 | 128 131 0 a, 131 140 0 a | 128 131 a  131 140 a | 128 128  131 128 | | -
names that no file can have | 128 4, 140 8, 141 8, 142 8, 143 8, 144 8 | 128 140 0 /, 128 141 0 a/b, 128 142 0, 128 143 0 ., 128 144 0 .. | | 128 128 | 140 140  141 141  142 142  143 143  144 144 | -
names of 255 and of 256 bytes | 128 4, 140 8, 141 8 | 128 140 0 aaaaaaaaaaaaaaaaaaaaaaaaaaaaaaaaaaaaaaaaaaaaaaaaaaaaaaaaaaaaaaaaaaaaaaaaaaaaaaaaaaaaaaaaaaaaaaaaaaaaaaaaaaaaaaaaaaaaaaaaaaaaaaaaaaaaaaaaaaaaaaaaaaaaaaaaaaaaaaaaaaaaaaaaaaaaaaaaaaaaaaaaaaaaaaaaaaaaaaaaaaaaaaaaaaaaaaaaaaaaaaaaaaaaaaaaaaaaaaaaaaaaaaaaaaaaaaa, 128 141 0 aaaaaaaaaaaaaaaaaaaaaaaaaaaaaaaaaaaaaaaaaaaaaaaaaaaaaaaaaaaaaaaaaaaaaaaaaaaaaaaaaaaaaaaaaaaaaaaaaaaaaaaaaaaaaaaaaaaaaaaaaaaaaaaaaaaaaaaaaaaaaaaaaaaaaaaaaaaaaaaaaaaaaaaaaaaaaaaaaaaaaaaaaaaaaaaaaaaaaaaaaaaaaaaaaaaaaaaaaaaaaaaaaaaaaaaaaaaaaaaaaaaaaaaaaaaaaaaa | 128 140 aaaaaaaaaaaaaaaaaaaaaaaaaaaaaaaaaaaaaaaaaaaaaaaaaaaaaaaaaaaaaaaaaaaaaaaaaaaaaaaaaaaaaaaaaaaaaaaaaaaaaaaaaaaaaaaaaaaaaaaaaaaaaaaaaaaaaaaaaaaaaaaaaaaaaaaaaaaaaaaaaaaaaaaaaaaaaaaaaaaaaaaaaaaaaaaaaaaaaaaaaaaaaaaaaaaaaaaaaaaaaaaaaaaaaaaaaaaaaaaaaaaaaaaaaaaaaaa | 128 128 | 141 141 | -
lost+found is a file with one name | 128 4, 140 8, 141 8 | 128 140 0 lost+found | | 128 128 | 140 140  141 141 | -
lost+found is a file with two names | 128 4, 140 8, 141 8 | 128 140 0 lost+found, 128 140 0 x | 128 140 x | 128 128 | 141 141 | -
lost+found is a file, and nothing is lost | 128 4, 140 8 | 128 140 0 lost+found | 128 140 lost+found | 128 128 | | -
lost+found of another directory | 128 4, 131 4, 140 8, 141 8 | 128 131 0 a, 131 140 0 lost+found | 128 131 a  131 140 lost+found | 128 128  131 128 | 141 141 | -
two names taken | 128 4, 131 4, 140 8, 141 8 | 128 131 0 lost+found, 131 141 0 140, 131 141 0 140.1 | 128 131 lost+found  131 141 140  131 141 140.1 | 128 128  131 128 | 140 140.2 | 131
a name that is taken elsewhere | 128 4, 131 4, 140 8, 141 8 | 128 141 0 140, 128 131 0 lost+found | 128 141 140  128 131 lost+found | 128 128  131 128 | 140 140 | 131
entries that name the root and the system inodes | 128 4, 129 8, 130 8, 131 4 | 128 128 0 a, 128 129 0 b, 128 130 0 c, 128 131 0 d, 131 128 0 e | 128 131 d | 128 128  131 128 | | -
a top before a cycle | 128 4, 140 4, 141 4, 150 4 | 140 141 0 u, 141 140 0 v, 150 141 0 t | 141 140 v  150 141 t | 128 128  140 141  141 150 | 150 150 | -
two tops that name one directory | 128 4, 150 4, 160 4, 170 4 | 150 170 0 x, 160 170 0 y | 150 170 x | 128 128  170 150 | 150 150  160 160 | -
a top that is named by a name that no file can have | 128 4, 150 4, 151 4 | 150 151 0 x, 151 150 0 / | 150 151 x | 128 128  151 150 | 150 150 | -
lost+found without orphans | 128 4, 131 4 | 128 131 0 lost+found | 128 131 lost+found | 128 128  131 128 | | 131
lost+found is a second name | 128 4, 150 4 | 128 150 0 a, 128 150 0 lost+found | 128 150 a | 128 128  150 128 | | -
a file with names in two directories | 128 4, 131 4, 140 8 | 128 131 0 a, 128 140 0 b, 131 140 0 c | 128 131 a  128 140 b  131 140 c | 128 128  131 128 | | -
a name of a file that is not kept | 128 4 | 128 140 0 a | | 128 128 | | -
a root without its entries | 128 4, 140 8, 150 4, 151 4 | 150 151 0 a, 151 140 0 b | 150 151 a  151 140 b | 128 128  151 150 | 150 150 | -
a directory with a lesser number than the root | 100 4, 128 4, 150 4 | 100 150 0 x, 128 150 0 y | 128 150 y | 128 128  150 128 | 100 100 | -
a gap among the names that are taken | 128 4, 131 4, 140 8, 141 8 | 128 131 0 lost+found, 131 141 0 140, 131 141 0 140.2 | 128 131 lost+found  131 141 140  131 141 140.2 | 128 128  131 128 | 140 140.1 | 131
only a later name is taken | 128 4, 131 4, 140 8, 141 8 | 128 131 0 lost+found, 131 141 0 140.1 | 128 131 lost+found  131 141 140.1 | 128 128  131 128 | 140 140 | 131
another file under the number of an orphan | 128 4, 131 4, 140 8, 141 8, 142 8 | 128 131 0 lost+found, 131 142 0 141 | 128 131 lost+found  131 142 141 | 128 128  131 128 | 140 140  141 141.1 | 131
names that differ in case | 128 4, 140 8, 141 8 | 128 140 0 a, 128 141 0 A | 128 140 a  128 141 A | 128 128 | | -
";

//! Small volumes with their root at 128, and the first law of names that each breaks: names in directories, places in
//! the tree of directories, links.
//!
//! In a row stand what the volume is, its parts, and the law with its place, what is held and what is due.

pub const WORLDS: &str = "\
an empty root | volume files 128 0x4000 2 6, 129 0x8000 1 0, 130 0x8000 1 0 | -
a root that is not whole | volume files 128 0x4000 2 6, 129 0x8000 1 0, 130 0x8000 1 0; volume dirs 128 128 false | 7 128 1 0
a file | volume files 128 0x4000 2 6, 129 0x8000 1 0, 130 0x8000 1 0, 131 0x8000 1 5; volume entries 128 131 1 a | -
a file of no stated type | volume files 128 0x4000 2 6, 129 0x8000 1 0, 130 0x8000 1 0, 131 0x8000 1 5; volume entries 128 131 0 a | -
a slash | volume files 128 0x4000 2 6, 129 0x8000 1 0, 130 0x8000 1 0, 131 0x8000 1 5; volume entries 128 131 1 a/b | 7 128 2 0
a zero byte | volume files 128 0x4000 2 6, 129 0x8000 1 0, 130 0x8000 1 0, 131 0x8000 1 5; volume entries 128 131 1 a\0 | 7 128 2 0
no bytes | volume files 128 0x4000 2 6, 129 0x8000 1 0, 130 0x8000 1 0, 131 0x8000 1 5; volume entries 128 131 1 | 7 128 2 0
255 bytes | volume files 128 0x4000 2 6, 129 0x8000 1 0, 130 0x8000 1 0, 131 0x8000 1 5; volume entries 128 131 1 aaaaaaaaaaaaaaaaaaaaaaaaaaaaaaaaaaaaaaaaaaaaaaaaaaaaaaaaaaaaaaaaaaaaaaaaaaaaaaaaaaaaaaaaaaaaaaaaaaaaaaaaaaaaaaaaaaaaaaaaaaaaaaaaaaaaaaaaaaaaaaaaaaaaaaaaaaaaaaaaaaaaaaaaaaaaaaaaaaaaaaaaaaaaaaaaaaaaaaaaaaaaaaaaaaaaaaaaaaaaaaaaaaaaaaaaaaaaaaaaaaaaaaaaaaaaaaa | -
256 bytes | volume files 128 0x4000 2 6, 129 0x8000 1 0, 130 0x8000 1 0, 131 0x8000 1 5; volume entries 128 131 1 aaaaaaaaaaaaaaaaaaaaaaaaaaaaaaaaaaaaaaaaaaaaaaaaaaaaaaaaaaaaaaaaaaaaaaaaaaaaaaaaaaaaaaaaaaaaaaaaaaaaaaaaaaaaaaaaaaaaaaaaaaaaaaaaaaaaaaaaaaaaaaaaaaaaaaaaaaaaaaaaaaaaaaaaaaaaaaaaaaaaaaaaaaaaaaaaaaaaaaaaaaaaaaaaaaaaaaaaaaaaaaaaaaaaaaaaaaaaaaaaaaaaaaaaaaaaaaaa | 7 128 2 0
a dot | volume files 128 0x4000 2 6, 129 0x8000 1 0, 130 0x8000 1 0, 131 0x8000 1 5; volume entries 128 131 1 . | 7 128 2 0
two dots | volume files 128 0x4000 2 6, 129 0x8000 1 0, 130 0x8000 1 0, 131 0x8000 1 5; volume entries 128 131 1 .. | 7 128 2 0
equal names | volume files 128 0x4000 2 6, 129 0x8000 1 0, 130 0x8000 1 0, 131 0x8000 1 5; volume entries 128 131 1 a, 128 131 1 b, 128 131 1 a | 7 128 2 0
a target that is not in use | volume files 128 0x4000 2 6, 129 0x8000 1 0, 130 0x8000 1 0; volume entries 128 140 1 a | 7 128 3 0
a target of the system's own | volume files 128 0x4000 2 6, 129 0x8000 1 0, 130 0x8000 1 0; volume entries 128 130 1 a | 7 128 3 0
a wrong type | volume files 128 0x4000 2 6, 129 0x8000 1 0, 130 0x8000 1 0, 131 0x8000 1 5; volume entries 128 131 2 a | 7 128 4 0
a name that is wrong in two ways | volume files 128 0x4000 2 6, 129 0x8000 1 0, 130 0x8000 1 0, 131 0x8000 1 5; volume entries 128 131 2 a, 128 140 1 a | 7 128 2 0
a pipe of its type | volume files 128 0x4000 2 6, 129 0x8000 1 0, 130 0x8000 1 0, 131 0x1000 1 0; volume entries 128 131 5 a | -
a directory | volume files 128 0x4000 3 6, 129 0x8000 1 0, 130 0x8000 1 0, 131 0x4000 2 6; volume dirs 128 128 true, 131 128 true; volume entries 128 131 2 a | -
one below another | volume files 128 0x4000 3 6, 129 0x8000 1 0, 130 0x8000 1 0, 131 0x4000 3 6, 132 0x4000 2 6; volume dirs 128 128 true, 131 128 true, 132 131 true; volume entries 128 131 2 a, 131 132 2 b | -
no name | volume files 128 0x4000 3 6, 129 0x8000 1 0, 130 0x8000 1 0, 131 0x4000 2 6; volume dirs 128 128 true, 131 128 true | 8 131 1 0
two names | volume files 128 0x4000 3 6, 129 0x8000 1 0, 130 0x8000 1 0, 131 0x4000 2 6; volume dirs 128 128 true, 131 128 true; volume entries 128 131 2 a, 128 131 2 b | 8 131 1 0
another parent | volume files 128 0x4000 3 6, 129 0x8000 1 0, 130 0x8000 1 0, 131 0x4000 3 6, 132 0x4000 2 6; volume dirs 128 128 true, 131 132 true, 132 128 true; volume entries 128 131 2 a, 128 132 2 b | 8 131 2 0
a cycle of two | volume files 128 0x4000 3 6, 129 0x8000 1 0, 130 0x8000 1 0, 131 0x4000 3 6, 132 0x4000 2 6; volume dirs 128 128 true, 131 132 true, 132 131 true; volume entries 131 132 2 a, 132 131 2 b | 8 131 3 0
a cycle that the root leads to | volume files 128 0x4000 3 6, 129 0x8000 1 0, 130 0x8000 1 0, 131 0x4000 3 6, 132 0x4000 2 6; volume dirs 128 128 true, 131 132 true, 132 131 true; volume entries 128 132 2 c, 131 132 2 a, 132 131 2 b | 8 132 1 0
a root with a name | volume files 128 0x4000 2 6, 129 0x8000 1 0, 130 0x8000 1 0; volume entries 128 128 2 a | 8 128 1 0
a root with another parent | volume files 128 0x4000 3 6, 129 0x8000 1 0, 130 0x8000 1 0, 131 0x4000 2 6; volume dirs 128 131 true, 131 128 true; volume entries 128 131 2 a | 8 128 2 0
a regular root | volume files 128 0x8000 1 0, 129 0x8000 1 0, 130 0x8000 1 0; volume dirs | 8 128 3 0
no root | volume files 129 0x8000 1 0, 130 0x8000 1 0; volume dirs | 8 128 3 0
no root, and a file before it | volume files 64 0x8000 0 0, 129 0x8000 1 0; volume dirs | 8 64 4 0
a file with no name and no link | volume files 128 0x4000 2 6, 129 0x8000 1 0, 130 0x8000 1 0, 131 0x8000 0 5 | 8 131 4 0
nothing | volume files; volume dirs | 8 128 3 0
three links of a root | volume files 128 0x4000 3 6, 129 0x8000 1 0, 130 0x8000 1 0 | 9 128 3 2
two links of a root with a directory | volume files 128 0x4000 2 6, 129 0x8000 1 0, 130 0x8000 1 0, 131 0x4000 2 6; volume dirs 128 128 true, 131 128 true; volume entries 128 131 2 a | 9 128 2 3
two names of a file | volume files 128 0x4000 2 6, 129 0x8000 1 0, 130 0x8000 1 0, 131 0xa000 2 5; volume entries 128 131 7 a, 128 131 7 b | -
two names and a link | volume files 128 0x4000 2 6, 129 0x8000 1 0, 130 0x8000 1 0, 131 0x8000 1 5; volume entries 128 131 1 a, 128 131 1 b | 9 131 1 2
the first of the system's is not there | volume files 128 0x4000 2 6, 130 0x8000 1 0 | 9 129 0 1
the second is not there | volume files 128 0x4000 2 6, 129 0x8000 1 0 | 9 130 0 1
the first has bytes | volume files 128 0x4000 2 6, 129 0x8000 1 4, 130 0x8000 1 0 | 9 129 0 1
the second has two links | volume files 128 0x4000 2 6, 129 0x8000 1 0, 130 0x8000 2 0 | 9 130 2 1
the first is a pipe | volume files 128 0x4000 2 6, 129 0x1000 1 0, 130 0x8000 1 0 | 9 129 0 1
";

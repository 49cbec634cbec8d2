//! Changes of the smallest volume, and the first law that each breaks.
//!
//! In a row stand what is changed, the parts that are changed, and the law.

/// The volume with the files `a` (131) and `b` (132) of a block each, 24 and 25.
pub const WITH_FILES: &str = "\
first agf 1002 998 0 1;
first agi 64 59;
first chain 0 0xffffffff;
first listed 6 7 8 9 10 11;
first bno 12 4, 26 998;
first cnt 12 4, 26 998;
first ino 128 0 64 59 0xffffffffffffffe0;
first fino 128 0 64 59 0xffffffffffffffe0;
first rmap 0 1 headers 0, 1 2 group 0, 3 2 inode-trees 0, 5 7 group 0, 16 8 inodes 0, 24 1 131 0, 25 1 132 0;
first trees 1, 2, 3, 4, 5;
last agf 500 500 0 1;
last agi 0 0;
last chain 0 0xffffffff;
last listed 518 519 520 521 522 523;
last bno 524 500;
last cnt 524 500;
last ino;
last fino;
last rmap 0 1 headers 0, 1 2 group 0, 3 2 inode-trees 0, 5 1 group 0, 6 512 log 0, 518 6 group 0;
last trees 1025, 1026, 1027, 1028, 1029;
volume files 128 0x41ed 2 0, 129 0x8000 1 0, 130 0x8000 1 0, 131 0x81a4 1 4096 24 1 false, 132 0x81a4 1 4096 25 1 false;
volume entries 128 131 1 a, 128 132 1 b;
volume dirs 128 128 true;
volume counts 64 59 1514;
volume head 0x100000002;
volume lsns 0 0, 16 0;
";

pub const CHANGES_OF_EMPTY: &str = "\
as it was made | | -
free blocks of the first group | first agf 5 1000 0 1 | 5 0 5 1004
links of the root | volume files 128 0x41ed 3 0, 129 0x8000 1 0, 130 0x8000 1 0 | 9 128 3 2
";

pub const CHANGES: &str = "\
as it was made | | -
an entry without a type | volume entries 128 131 1 a, 128 132 0 b | -
a block as new as the log | volume lsns 0 0, 16 0x100000002 | -
a block that was never logged | volume lsns 0 0, 16 0xffffffffffffffff | -
a file on the block of another | volume files 128 0x41ed 2 0, 129 0x8000 1 0, 130 0x8000 1 0, 131 0x81a4 1 4096 24 1 false, 132 0x81a4 1 4096 24 1 false | 1 24 2 1
a listed block of a file | first listed 6 7 8 9 10 24 | 1 24 2 1
a root among the inodes | first trees 1, 2, 3, 4, 16 | 1 16 2 1
a run that ends early | first bno 12 4, 26 997 | 2 0 26:997 26:998
a run that begins late | first bno 13 3, 26 998 | 2 0 13:3 12:4
a run by length that ends early | first cnt 12 4, 26 997 | 2 1 26:997 26:998
a block with another owner | first rmap 0 1 headers 0, 1 2 group 0, 3 2 inode-trees 0, 5 7 group 0, 16 8 inodes 0, 24 1 132 0, 25 1 132 0 | 3 24 132:0 131:0
a block at another offset | first rmap 0 1 headers 0, 1 2 group 0, 3 2 inode-trees 0, 5 7 group 0, 16 8 inodes 0, 24 1 131 1, 25 1 132 0 | 3 24 131:1 131:0
a block recorded as unwritten | first rmap 0 1 headers 0, 1 2 group 0, 3 2 inode-trees 0, 5 7 group 0, 16 8 inodes 0, 24 1 131 0x2000000000000000, 25 1 132 0 | 3 24 131:0x2000000000000000 131:0
the last block with another owner | first rmap 0 1 headers 0, 1 2 group 0, 3 2 inode-trees 0, 5 7 group 0, 16 8 inodes 0, 24 1 131 0, 25 1 131 1 | 3 25 131:1 132:0
the last block without a record | first rmap 0 1 headers 0, 1 2 group 0, 3 2 inode-trees 0, 5 7 group 0, 16 8 inodes 0, 24 1 131 0 | 3 25 nothing 132:0
a record of a free block | first rmap 0 1 headers 0, 1 2 group 0, 3 2 inode-trees 0, 5 7 group 0, 16 8 inodes 0, 24 1 131 0, 25 2 132 0 | 3 26 132:1 nothing
an inode in use that is free | first ino 128 0 64 59 0xffffffffffffffe8 | 4 0 128:0x403b:0xffffffff:0xffffffe8 128:0x403b:0xffffffff:0xffffffe0
free inodes of a chunk | first ino 128 0 64 58 0xffffffffffffffe0 | 4 0 128:0x403a:0xffffffff:0xffffffe0 128:0x403b:0xffffffff:0xffffffe0
free inodes of a free chunk | first fino 128 0 64 58 0xffffffffffffffe0 | 4 1 128:0x403a:0xffffffff:0xffffffe0 128:0x403b:0xffffffff:0xffffffe0
no free chunk | first fino | 4 1 nothing 128:0x403b:0xffffffff:0xffffffe0
the longest run | first agf 1002 999 0 1 | 5 1 999 998
blocks of trees | first agf 1002 998 1 1 | 5 2 1 0
blocks of the reverse-mapping tree | first agf 1002 998 0 2 | 5 3 2 1
inodes of the group | first agi 63 59 | 5 4 63 64
free inodes of the group | first agi 64 58 | 5 5 58 59
inodes of the volume | volume counts 32 59 1514 | 5 16 32 64
free inodes of the volume | volume counts 64 58 1514 | 5 17 58 59
free blocks of the volume | volume counts 64 59 1502 | 5 18 1502 1514
a block that is listed twice | first listed 6 7 8 9 10 10; first bno 11 5, 26 998; first cnt 11 5, 26 998; first rmap 0 1 headers 0, 1 2 group 0, 3 2 inode-trees 0, 5 6 group 0, 16 8 inodes 0, 24 1 131 0, 25 1 132 0; first agf 1003 998 0 1; volume counts 64 59 1515 | 6 0 6 5
free blocks of the group | first agf 5 998 0 1 | 5 0 5 1002
a root that is not whole | volume dirs 128 128 false | 7 128 1 0
a slash | volume entries 128 131 1 a, 128 132 1 / | 7 128 2 0
equal names | volume entries 128 131 1 a, 128 132 1 a | 7 128 2 0
a target of the system's own | volume entries 128 131 1 a, 128 130 1 b | 7 128 3 0
a target that is not in use | volume entries 128 131 1 a, 128 140 1 b | 7 128 3 0
a wrong type | volume entries 128 131 1 a, 128 132 2 b | 7 128 4 0
a file without a name | volume entries 128 131 1 a, 128 131 1 b | 8 132 4 0
a root with another parent | volume dirs 128 131 true | 8 128 2 0
three links of the root | volume files 128 0x41ed 3 0, 129 0x8000 1 0, 130 0x8000 1 0, 131 0x81a4 1 4096 24 1 false, 132 0x81a4 1 4096 25 1 false | 9 128 3 2
two links of a file | volume files 128 0x41ed 2 0, 129 0x8000 1 0, 130 0x8000 1 0, 131 0x81a4 2 4096 24 1 false, 132 0x81a4 1 4096 25 1 false | 9 131 2 1
no link of the first of the system's | volume files 128 0x41ed 2 0, 129 0x8000 0 0, 130 0x8000 1 0, 131 0x81a4 1 4096 24 1 false, 132 0x81a4 1 4096 25 1 false | 9 129 0 1
a byte of the second | volume files 128 0x41ed 2 0, 129 0x8000 1 0, 130 0x8000 1 1, 131 0x81a4 1 4096 24 1 false, 132 0x81a4 1 4096 25 1 false | 9 130 0 1
a log that is not clean | volume head - | 10 0 1 0
a chain of the first group | first chain 0 130 | 10 1 130 0xffffffff
a chain of the last group | last chain 63 130 | 10 128 130 0xffffffff
a block behind the log | volume lsns 0 0, 16 0x100000003 | 10 0x10000000010 0x100000003 0x100000002
a block far behind the log | volume lsns 0 0, 16 0xfffffffffffffffe | 10 0x10000000010 0xfffffffffffffffe 0x100000002
";

/// Changes of the volume with more files. Where several laws are broken the first is told, whichever is found sooner.
pub const CHANGES_OF_MANY: &str = "\
as it was made | | -
a log that is not clean | volume head - | 10 0 1 0
a listed block of a file and a root that is not whole | first listed 6 7 8 9 10 24; volume dirs 128 128 false | 1 24 2 1
free inodes of a chunk and a root that is not whole | first ino 128 0 64 58 0xffffffffffffffe0; volume dirs 128 128 false | 4 0 128:0x403a:0xffffffff:0xffffffe0 128:0x403b:0xffffffff:0xffffffe0
a root that is not whole and a log that is not clean | volume dirs 128 128 false; volume head - | 7 128 1 0
";

//! Volumes without files, which are lawful or not with these files.
//!
//! In a row stand what the volume is, the parts that are changed, its files, and the law.

/// A volume with one chunk, at AG blocks 16 to 23, and no file.
pub const BASE: &str = "\
first agf 1004 1000 0 1;
first agi 64 1;
first chain 0 0xffffffff;
first listed 6 7 8 9 10 11;
first bno 12 4, 24 1000;
first cnt 12 4, 24 1000;
first ino 128 0 64 1 8;
first fino 128 0 64 1 8;
first rmap 0 1 headers 0, 1 2 group 0, 3 2 inode-trees 0, 5 7 group 0, 16 8 inodes 0;
first trees 1, 2, 3, 4, 5;
last agf 500 500 0 1;
last agi 0 0;
last chain 0 0xffffffff;
last listed 518 519 520 521 522 523;
last bno 524 500;
last cnt 524 500;
last ino;
last fino;
last rmap 0 1 headers 0, 1 2 group 0, 3 2 inode-trees 0, 5 1 group 0, 6 512 log 0, 518 6 group 0;
last trees 1025, 1026, 1027, 1028, 1029;
volume files;
volume entries;
volume dirs;
volume counts 64 1 1516;
volume head 0x100000002;
volume lsns 0 0, 16 0;
";

pub const ROWS: &str = "\
as it was made | | | -
a listed block that stands twice | first listed 6 7 8 9 10 11 11 | | -
half of a chunk | first bno 12 4, 20 1004; first cnt 12 4, 20 1004; first ino 128 0xff00 32 1 8; first fino 128 0xff00 32 1 8; first rmap 0 1 headers 0, 1 2 group 0, 3 2 inode-trees 0, 5 7 group 0, 16 4 inodes 0 | | -
all of a file | first bno 12 4, 24 4, 1020 4; first cnt 12 4, 24 4, 1020 4; first rmap 0 1 headers 0, 1 2 group 0, 3 2 inode-trees 0, 5 7 group 0, 16 8 inodes 0, 28 1 131 0x4000000000000000, 29 1 131 0x8000000000000000, 30 990 131 0x2000000000000000 | 131 0 1 0 30 990 true 29 1 false 28 | -
two files on one run | | 131 0 1 0 24 5 false, 132 0 1 0 24 5 false | 1 24 2 1
a file on a cluster and on two files | | 133 0 1 0 26 1 false, 131 0 1 0 24 5 false, 134 0 1 0 20 7 false | 1 20 2 1
three files on a block | | 133 0 1 0 26 1 false, 131 0 1 0 24 5 false, 135 0 1 0 26 1 false | 1 26 3 1
a file on the last block of the log | | 131 0 1 0 1541 1 false | 1 1541 2 1
a free run too few | first bno 12 4 | | 2 0 nothing 24:1000
a free run too many | | 131 0 1 0 24 1000 false | 2 0 24:1000 nothing
a free run that ends early | first bno 12 3, 24 1000 | | 2 0 12:3 12:4
by length | first bno 12 4, 24 3, 30 994; first cnt 12 4, 30 994 | 131 0 1 0 27 3 false | 2 1 12:4 24:3
the last group | last cnt 524 499 | | 2 3 524:499 524:500
a cluster without a record | first rmap 0 1 headers 0, 1 2 group 0, 3 2 inode-trees 0, 5 7 group 0 | | 3 16 nothing inodes:0
trees with another owner | first rmap 0 1 headers 0, 1 4 group 0, 5 7 group 0, 16 8 inodes 0 | | 3 3 group:0 inode-trees:0
an offset | first bno 12 4, 29 995; first cnt 12 4, 29 995; first rmap 0 1 headers 0, 1 2 group 0, 3 2 inode-trees 0, 5 7 group 0, 16 8 inodes 0, 24 3 131 0, 27 2 131 4 | 131 0 1 0 24 5 false | 3 27 131:4 131:3
a file as it is recorded | first bno 12 4, 29 995; first cnt 12 4, 29 995; first rmap 0 1 headers 0, 1 2 group 0, 3 2 inode-trees 0, 5 7 group 0, 16 8 inodes 0, 24 5 131 0 | 131 0 1 0 24 5 false | -
a file that is unwritten | first bno 12 4, 29 995; first cnt 12 4, 29 995; first rmap 0 1 headers 0, 1 2 group 0, 3 2 inode-trees 0, 5 7 group 0, 16 8 inodes 0, 24 5 131 0 | 131 0 1 0 24 5 true | 3 24 131:0 131:0x2000000000000000
a block of a tree | first bno 12 4, 29 995; first cnt 12 4, 29 995; first rmap 0 1 headers 0, 1 2 group 0, 3 2 inode-trees 0, 5 7 group 0, 16 8 inodes 0, 24 5 131 0 | 131 0 1 0 24 4 false - 28 | 3 28 131:4 131:0x4000000000000000
a record past the last owner | last rmap 0 1 headers 0, 1 2 group 0, 3 2 inode-trees 0, 5 1 group 0, 6 512 log 0, 518 6 group 0, 1000 1 131 0 | | 3 2024 131:0 nothing
";

//! Attributes cut from an image that a Linux kernel wrote. The `xfs_db` of xfsprogs prints the same names,
//! values and flags of them.

use super::*;

/// The attribute fork of a symlink, in its short form: `selinux` of the security modules, with thirty times
/// `q` as its value.
const LABEL: &str =
    "002c0100071e0473656c696e757871717171717171717171717171717171717171717171717171717171717100000000";

/// What the fork holds.
const LABELLED: &str = "4 selinux=717171717171717171717171717171717171717171717171717171717171";

/// A leaf of three attributes: the bytes at its front, and those from its first value on.
const LEAF: &str = "\
0 00000000000000003bee000055636aaf00000000000000c00000000100000002
32 fedaf011f1954857899738fe34e0e1b200000000000000a20003011c0ee40000
64 00680e7c00000000000000000000000007527e600ee401001bfe3f0b0f0c0100
96 d0efc4270f600100
3812 0010126e325f78787878787878787878787878787857352cefaf342cc7874d5f
3844 e8f85c01e90000000048066e315f787878a4ec787c22e6bb168003f57747fb09
3876 8d04c2fbcca2b7134c8bc5ee066032f0e4a4ec787c22e6bb168003f57747fb09
3908 8d04c2fbcca2b7134c8bc5ee066032f0e4a4ec787c22e6bb1600000000920b6e
3940 305f7878787878787878887d91f5fcc1a792b2f3deb1a321e4bb946c25cb371b
3972 2be9974fce060ba8e2e4887d91f5fcc1a792b2f3deb1a321e4bb946c25cb371b
4004 2be9974fce060ba8e2e4887d91f5fcc1a792b2f3deb1a321e4bb946c25cb371b
4036 2be9974fce060ba8e2e4887d91f5fcc1a792b2f3deb1a321e4bb946c25cb371b
4068 2be9974fce060ba8e2e4887d91f5fcc1a792b2f3deb1a321e4bb946c
";

/// What the leaf holds.
const HELD: &str = "\
1 n2_xxxxxxxxxxxxxxx=57352cefaf342cc7874d5fe8f85c01e9, \
1 n1_xxx=a4ec787c22e6bb168003f57747fb098d04c2fbcca2b7134c8bc5ee066032f0e4a4ec787c22e6bb168003f57747fb098d04c2fbcca2b7134c8bc5ee066032f0e4a4ec787c22e6bb16, \
1 n0_xxxxxxxx=887d91f5fcc1a792b2f3deb1a321e4bb946c25cb371b2be9974fce060ba8e2e4887d91f5fcc1a792b2f3deb1a321e4bb946c25cb371b2be9974fce060ba8e2e4887d91f5fcc1a792b2f3deb1a321e4bb946c25cb371b2be9974fce060ba8e2e4887d91f5fcc1a792b2f3deb1a321e4bb946c25cb371b2be9974fce060ba8e2e4887d91f5fcc1a792b2f3deb1a321e4bb946c";

#[test]
fn attributes_that_a_kernel_wrote(rt: HostRuntime) {
    let rt = &rt;
    let alloc = rt.alloc();
    let label = Row::new(LABEL).bytes(rt, alloc);
    expect(rt, read_short_attributes(alloc, &label), LABELLED, "label");
    let mut block = [0; BLOCK_SIZE];
    put_parts(rt, &mut block, LEAF);
    expect(rt, read_leaf(alloc, &block), HELD, "leaf");
}

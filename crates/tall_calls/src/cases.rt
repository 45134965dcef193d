//! Small files with plans, and what they give, written by hand.

/// A file with a plan, and what they give.
pub(crate) const CALLS: [(&[u8], &str, &str); 7] = [
    (
        b"\xEF\xBB\xBFx\r\n 5 \r\n2.5\r\n\"\"\r\n",
        "formats d8",
        "x:Int8 \n 5\n 3\n 0\n",
    ),
    (
        b"x\n\"a\"\"b\"\n NA \n\xC3\xA9\n",
        "formats q",
        "x:Text \n \"a\\\"b\"\n \" NA \"\n \"\u{E9}\"\n",
    ),
    (
        b"x,y\n1,2\n3,4\n",
        "select y,x|size 1",
        "x:Double y:Double \n 2 1\n 4 3\n",
    ),
    // The first data record decides, and not the header.
    (
        b"1,y,z\n1,a, \n",
        "",
        "1:Double y:Text z:Double \n 1 \"a\" NaN\n",
    ),
    (
        b"x,y\n1,?\n?,2\n",
        "formats f,f",
        "x:Double y:Double \nBadField at file 0 row 1 column 2\n",
    ),
    (b"", "select y", "NoHeader"),
    (b"x\n1\n", "size 2147483648", "BadArgument"),
];

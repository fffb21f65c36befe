// Lines that can be read and lines that cannot.
use crate::case::Case;

pub const CASES: [Case; 19] = [
    Case {
        name: "no line at all",
        script: "",
        printed: "configurations 0\noperations 0\nrefusals 0\n",
    },
    Case {
        name: "one empty line",
        script: "\n",
        printed: "configurations 0\noperations 0\nrefusals 1\n1 23 script\n",
    },
    Case {
        name: "a last line without a line end",
        script: "S 1 4 1 15 0 0 412\nR 1",
        printed: "configurations 1\n0 15\noperations 1\n1 R 1 0 0 0 0 0\nrefusals 0\n",
    },
    Case {
        name: "empty lines amid and at the end",
        script: "S 1 4 1 15 0 0 412\n\nR 1\n\n",
        printed: "\
            configurations 1\n0 15\n\
            operations 1\n1 R 1 0 0 0 0 0\n\
            refusals 2\n2 23 script\n4 23 script\n\
        ",
    },
    Case {
        name: "letters that there are not",
        script: "S 1 4 1 15 0 0 412\nX 1\nr 1\nRR 1\n1 R\nR1\n \n",
        printed: "\
            configurations 1\n0 15\n\
            operations 0\n\
            refusals 6\n2 23 script\n3 23 script\n4 23 script\n5 23 script\n6 23 script\n7 23 script\n\
        ",
    },
    Case {
        name: "too few fields",
        script: "S 1 4 1 15 0 0 412\nS\nI\nR\nW 1 0\nD 0\nO\nT\nM 100 1 0 0 0 0 0 0\n",
        printed: "\
            configurations 1\n0 15\n\
            operations 0\n\
            refusals 8\n2 23 script\n3 23 script\n4 23 script\n5 23 script\n6 23 script\n7 23 script\n\
            8 23 script\n9 23 script\n\
        ",
    },
    Case {
        name: "too many fields",
        script: "\
            S 1 4 1 15 0 0 412\nI 15 0\nR 1 1\nW 1 0 412 0\nD 0 100 0\nO 1 1\nT 1 1\n\
            M 100 1 0 0 0 0 0 0 0 0\n\
        ",
        printed: "\
            configurations 1\n0 15\n\
            operations 0\n\
            refusals 7\n2 23 script\n3 23 script\n4 23 script\n5 23 script\n6 23 script\n7 23 script\n\
            8 23 script\n\
        ",
    },
    Case {
        name: "spaces and other white bytes out of place",
        script: "S 1 4 1 15 0 0 412\n R 1\nR 1 \nR  1\nR\t1\nR 1\r\nR \x0b1\n",
        printed: "\
            configurations 1\n0 15\n\
            operations 0\n\
            refusals 6\n2 23 script\n3 23 script\n4 23 script\n5 23 script\n6 23 script\n7 23 script\n\
        ",
    },
    Case {
        name: "signs where none may stand",
        script: "\
            S 1 4 1 15 0 0 412\nR -1\nR +1\nW 1 5 -412\nW 1 --5 412\nW 1 - 412\nW 1 5- 412\nW 1 +5 412\n\
            W -1 5 412\nD -0 100\n\
        ",
        printed: "\
            configurations 1\n0 15\n\
            operations 0\n\
            refusals 9\n2 23 script\n3 23 script\n4 23 script\n5 23 script\n6 23 script\n7 23 script\n\
            8 23 script\n9 23 script\n10 23 script\n\
        ",
    },
    Case {
        name: "fields that are no decimal digits",
        script: "S 1 4 1 15 0 0 412\nR x\nR 0x1\nR 1.0\nR 1_0\nR 1,0\nR ١\nD 0 1e2\nW 1 5g 412\nI 1111b\n",
        printed: "\
            configurations 1\n0 15\n\
            operations 0\n\
            refusals 9\n2 23 script\n3 23 script\n4 23 script\n5 23 script\n6 23 script\n7 23 script\n\
            8 23 script\n9 23 script\n10 23 script\n\
        ",
    },
    Case {
        name: "a minus sign before grams",
        script: "S 1 4 3 15 0 -0 412\nW 1 -5 412\nW 2 -0 412\nW 3 -1000000000 0\n",
        printed: "\
            configurations 1\n0 15\n\
            operations 3\n1 W 1 0 0 0 -5 412\n2 W 2 0 0 0 0 412\n3 W 3 0 0 0 -1000000000 0\n\
            refusals 0\n\
        ",
    },
    Case {
        name: "leading zeros",
        script: "\
            S 01 04 002 0015 000 -000 0412\nW 01 -007 00412\nD 00 0100\nD 1 000000000000000000000000001\n\
        ",
        printed: "configurations 1\n0 15\noperations 1\n1 W 1 0 0 0 -7 412\nrefusals 0\n",
    },
    Case {
        name: "numbers at and above the largest that can be read",
        script: "\
            S 1 4 1 15 0 0 412\nR 18446744073709551615\nR 18446744073709551616\n\
            W 1 9223372036854775807 0\nW 1 9223372036854775808 0\n\
            W 1 -9223372036854775808 0\nW 1 -9223372036854775809 0\nW 1 0 18446744073709551615\n\
            W 1 0 18446744073709551616\n\
            D 18446744073709551615 100\nD 18446744073709551616 100\nD 0 18446744073709551615\n\
            D 0 18446744073709551616\n\
            I 18446744073709551615\nI 18446744073709551616\nO 18446744073709551615\n\
            O 18446744073709551616\nT 18446744073709551615\nT 18446744073709551616\n\
            R 99999999999999999999999\n\
        ",
        printed: "\
            configurations 1\n0 15\n\
            operations 0\n\
            refusals 19\n2 5 hall\n3 23 script\n4 21 kind\n5 23 script\n6 21 kind\n7 23 script\n\
            8 21 kind\n9 23 script\n10 5 hall\n11 23 script\n12 5 hall\n13 23 script\n14 2 hall\n\
            15 23 script\n16 18 client\n17 23 script\n18 18 client\n19 23 script\n20 23 script\n\
        ",
    },
    Case {
        name: "numbers at and above the largest of each field of an entry",
        script: "\
            S 1 4 1 15 1 0 412\n\
            M 100 255 255 4294967295 4294967295 4294967295 255 18446744073709551615 18446744073709551615\n\
            M 100 256 0 0 0 0 0 0 0\nM 100 0 256 0 0 0 0 0 0\n\
            M 100 0 0 4294967296 0 0 0 0 0\nM 100 0 0 0 4294967296 0 0 0 0\n\
            M 100 0 0 0 0 4294967296 0 0 0\nM 100 0 0 0 0 0 256 0 0\n\
            M 100 0 0 0 0 0 0 18446744073709551616 0\nM 100 0 0 0 0 0 0 0 18446744073709551616\n\
            M 256 0 0 0 0 0 0 0 0\nM 18446744073709551615 0 0 0 0 0 0 0 0\n\
            M 18446744073709551616 0 0 0 0 0 0 0 0\n\
            D 0 100\nD 1 100\n\
        ",
        printed: "\
            configurations 1\n0 15\n\
            operations 0\n\
            refusals 13\n3 23 script\n4 23 script\n5 23 script\n6 23 script\n7 23 script\n8 23 script\n\
            9 23 script\n10 23 script\n11 5 hall\n12 5 hall\n13 23 script\n14 11 hall\n15 5 hall\n\
        ",
    },
    Case {
        name: "lines before the opening",
        script: "R 1\nD 0 100\nX\nS 1 4 1 15 0 0 412\nR 1\n",
        printed: "\
            configurations 1\n0 15\n\
            operations 1\n1 R 1 0 0 0 0 0\n\
            refusals 3\n1 23 script\n2 23 script\n3 23 script\n\
        ",
    },
    Case {
        name: "another opening",
        script: "S 1 4 1 15 0 0 412\nS 1 4 2 15 0 0 412\nR 1\nR 2\n",
        printed: "configurations 1\n0 15\noperations 1\n1 R 1 0 0 0 0 0\nrefusals 2\n2 23 script\n4 5 hall\n",
    },
    Case {
        name: "whatever comes after a refused opening",
        script: "S 0 4 1 15 0 0 412\nS 1 4 1 15 0 0 412\nR 1\nX\n",
        printed: "\
            configurations 0\n\
            operations 0\n\
            refusals 4\n1 1 hall\n2 23 script\n3 23 script\n4 23 script\n\
        ",
    },
    Case {
        name: "an opening that cannot be read is not a refused one",
        script: "\
            S 1 4 1 15 0 0\nS 1 4 1 15 0 0 412 0\ns 1 4 1 15 0 0 412\n\
            S 18446744073709551616 4 1 15 0 0 412\nS 1 4 1 -15 0 0 412\nS 1 4 1 15 0 0 412\nR 1\n\
        ",
        printed: "\
            configurations 1\n0 15\n\
            operations 1\n1 R 1 0 0 0 0 0\n\
            refusals 5\n1 23 script\n2 23 script\n3 23 script\n4 23 script\n5 23 script\n\
        ",
    },
    Case {
        name: "nothing but an opening",
        script: "S 1 4 1 15 0 0 412\n",
        printed: "configurations 1\n0 15\noperations 0\nrefusals 0\n",
    },
];

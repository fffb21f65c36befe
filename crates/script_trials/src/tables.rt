// Full tables and long texts: scripts of which a part is repeated.
use crate::case::Repeated;

pub const CASES: [Repeated; 11] = [
    Repeated {
        name: "a full post comes after a party that there is not and before what does not fit",
        head: "\
            S 1 4 2 15 1 0 412\n\
            R 1\n\
        ",
        part: "D 0 100\n",
        times: 511,
        tail: "\
            D 0 100\nD 511 1\nD 512 100\nD 0 104\nD 0 1\nD 0 0\n\
            I 15\nI 7\nR 1\nR 2\nR 3\nW 2 5 412\nW 2 0 100000\n\
            M 100 1 0 0 0 0 0 0 0\nM 101 1 0 0 0 0 0 0 0\nM 104 1 0 0 0 0 0 0 0\n\
            T 1\nO 1\nO 1\nR 1\n\
        ",
        printed: "\
            configurations 1\n0 15\n\
            operations 1\n1 R 1 0 0 0 0 0\n\
            refusals 19\n514 6 hall\n515 6 hall\n516 5 hall\n517 5 hall\n518 6 hall\n519 6 hall\n\
            520 6 hall\n521 2 hall\n522 7 client\n523 6 hall\n524 5 hall\n525 6 hall\n526 21 kind\n\
            527 6 hall\n528 20 hall\n529 5 hall\n530 19 client\n532 18 client\n533 6 hall\n\
        ",
    },
    Repeated {
        name: "the last free place of the post is used",
        head: "\
            S 1 4 1 15 0 0 412\n\
            R 1\n\
        ",
        part: "D 0 100\n",
        times: 510,
        tail: "D 0 101\nD 511 1\nI 15\n",
        printed: "\
            configurations 1\n0 15\noperations 1\n1 R 1 0 0 0 0 0\nrefusals 2\n514 6 hall\n515 6 hall\n\
        ",
    },
    Repeated {
        name: "a round does not end once the post is full",
        head: "\
            S 1 4 1 15 0 0 412\n\
            R 1\nD 0 100\nD 0 101\nD 0 102\nD 1 1\nD 2 1\n\
        ",
        part: "D 0 103\n",
        times: 508,
        tail: "D 3 1\nT 1\n",
        printed: "\
            configurations 1\n0 15\n\
            operations 1\n1 R 1 0 0 0 0 0\n\
            refusals 2\n516 6 hall\n517 19 client\n\
        ",
    },
    Repeated {
        name: "a full log",
        head: "S 1 4 2 15 0 0 412\n",
        part: "R 1\nO 1\n",
        times: 64,
        tail: "R 1\nR 2\nW 1 5 412\nR 3\nW 1 5 100000\nI 15\nD 0 100\n",
        printed: "\
            configurations 2\n0 15\n1 15\n\
            operations 64\n1 R 1 0 0 0 0 0\n1 R 2 0 0 0 0 0\n1 R 3 0 0 0 0 0\n1 R 4 0 0 0 0 0\n\
            1 R 5 0 0 0 0 0\n1 R 6 0 0 0 0 0\n1 R 7 0 0 0 0 0\n1 R 8 0 0 0 0 0\n1 R 9 0 0 0 0 0\n\
            1 R 10 0 0 0 0 0\n1 R 11 0 0 0 0 0\n1 R 12 0 0 0 0 0\n1 R 13 0 0 0 0 0\n1 R 14 0 0 0 0 0\n\
            1 R 15 0 0 0 0 0\n1 R 16 0 0 0 0 0\n1 R 17 0 0 0 0 0\n1 R 18 0 0 0 0 0\n1 R 19 0 0 0 0 0\n\
            1 R 20 0 0 0 0 0\n1 R 21 0 0 0 0 0\n1 R 22 0 0 0 0 0\n1 R 23 0 0 0 0 0\n1 R 24 0 0 0 0 0\n\
            1 R 25 0 0 0 0 0\n1 R 26 0 0 0 0 0\n1 R 27 0 0 0 0 0\n1 R 28 0 0 0 0 0\n1 R 29 0 0 0 0 0\n\
            1 R 30 0 0 0 0 0\n1 R 31 0 0 0 0 0\n1 R 32 0 0 0 0 0\n1 R 33 0 0 0 0 0\n1 R 34 0 0 0 0 0\n\
            1 R 35 0 0 0 0 0\n1 R 36 0 0 0 0 0\n1 R 37 0 0 0 0 0\n1 R 38 0 0 0 0 0\n1 R 39 0 0 0 0 0\n\
            1 R 40 0 0 0 0 0\n1 R 41 0 0 0 0 0\n1 R 42 0 0 0 0 0\n1 R 43 0 0 0 0 0\n1 R 44 0 0 0 0 0\n\
            1 R 45 0 0 0 0 0\n1 R 46 0 0 0 0 0\n1 R 47 0 0 0 0 0\n1 R 48 0 0 0 0 0\n1 R 49 0 0 0 0 0\n\
            1 R 50 0 0 0 0 0\n1 R 51 0 0 0 0 0\n1 R 52 0 0 0 0 0\n1 R 53 0 0 0 0 0\n1 R 54 0 0 0 0 0\n\
            1 R 55 0 0 0 0 0\n1 R 56 0 0 0 0 0\n1 R 57 0 0 0 0 0\n1 R 58 0 0 0 0 0\n1 R 59 0 0 0 0 0\n\
            1 R 60 0 0 0 0 0\n1 R 61 0 0 0 0 0\n1 R 62 0 0 0 0 0\n1 R 63 0 0 0 0 0\n1 R 64 0 0 0 0 0\n\
            refusals 5\n130 6 hall\n131 6 hall\n132 6 hall\n133 5 hall\n134 21 kind\n\
        ",
    },
    Repeated {
        name: "a full roll",
        head: "S 1 4 1 15 0 0 412\n",
        part: "I 15\n",
        times: 15,
        tail: "I 15\nI 7\nI 31\nR 1\nD 0 100\n",
        printed: "\
            configurations 16\n0 15\n1 15\n2 15\n3 15\n4 15\n5 15\n6 15\n7 15\n8 15\n9 15\n10 15\n11 15\n\
            12 15\n13 15\n14 15\n15 15\n\
            operations 1\n1 R 1 0 0 0 0 0\n\
            refusals 3\n17 6 hall\n18 2 hall\n19 2 hall\n\
        ",
    },
    Repeated {
        name: "32,768 bytes that end with a line end",
        head: "S 1 4 1 15 0 0 412\nR ",
        part: "0",
        times: 32745,
        tail: "1\n",
        printed: "configurations 1\n0 15\noperations 1\n1 R 1 0 0 0 0 0\nrefusals 0\n",
    },
    Repeated {
        name: "32,768 bytes that end without a line end: the last line may be cut",
        head: "S 1 4 1 15 0 0 412\nR ",
        part: "0",
        times: 32746,
        tail: "1",
        printed: "configurations 1\n0 15\noperations 0\nrefusals 1\n2 23 script\n",
    },
    Repeated {
        name: "a line end just behind 32,768 bytes comes too late",
        head: "S 1 4 1 15 0 0 412\nR ",
        part: "0",
        times: 32746,
        tail: "1\n",
        printed: "configurations 1\n0 15\noperations 0\nrefusals 1\n2 23 script\n",
    },
    Repeated {
        name: "32,767 bytes that end without a line end",
        head: "S 1 4 1 15 0 0 412\nR ",
        part: "0",
        times: 32745,
        tail: "1",
        printed: "configurations 1\n0 15\noperations 1\n1 R 1 0 0 0 0 0\nrefusals 0\n",
    },
    Repeated {
        name: "nothing behind 32,768 bytes is read",
        head: "S 1 4 1 15 0 0 412\nR ",
        part: "0",
        times: 32745,
        tail: "1\nR 1\nX\n",
        printed: "configurations 1\n0 15\noperations 1\n1 R 1 0 0 0 0 0\nrefusals 0\n",
    },
    Repeated {
        name: "of a long line only the beginning is seen",
        head: "S 1 4 1 15 0 0 412\nR 1\n",
        part: "0",
        times: 40000,
        tail: "\nR 1\n",
        printed: "configurations 1\n0 15\noperations 1\n1 R 1 0 0 0 0 0\nrefusals 1\n3 23 script\n",
    },
];

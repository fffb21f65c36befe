// New sets in each stage of a client's operation.
use crate::case::Case;

pub const CASES: [Case; 9] = [
    Case {
        name: "an idle client takes a new set and begins in it",
        script: "\
            S 1 5 2 15 0 0 412\n\
            I 30\nD 0 1\nR 1\n\
            D 1 100\nD 2 1\nD 3 100\nD 1 100\nD 4 100\n\
            D 1 104\nD 4 1\nD 5 104\nD 1 104\n\
        ",
        printed: "\
            configurations 2\n0 15\n1 30\n\
            operations 1\n1 R 1 0 0 0 0 0\n\
            refusals 3\n8 13 replica\n9 5 hall\n13 17 replica\n\
        ",
    },
    Case {
        name: "a new set while a client reads: it reads again",
        script: "\
            S 1 5 2 15 0 0 412\n\
            R 1\nD 0 101\nD 1 1\nI 30\nD 2 1\n\
            D 1 1\nD 0 100\nD 4 1\n\
            D 3 101\nD 5 1\nD 6 101\nD 3 101\nD 6 102\nD 6 103\nD 6 104\nD 6 100\n\
            D 7 100\nD 7 102\nD 7 103\nD 11 101\nD 12 101\nD 13 101\n\
            D 8 100\nD 8 101\nD 8 103\nD 14 102\nD 15 102\nD 16 102\n\
            D 10 100\nD 10 101\nD 10 102\nD 17 104\nD 18 104\nD 19 104\n\
            D 3 101\nD 3 102\nD 3 104\nD 20 1\nD 21 1\nD 22 1\nT 1\n\
        ",
        printed: "\
            configurations 2\n0 15\n1 30\n\
            operations 1\n1 R 1 2 0 0 0 412\n\
            refusals 3\n7 15 client\n9 15 client\n13 17 replica\n\
        ",
    },
    Case {
        name: "what a round heard in the old epoch is forgotten in the new one",
        script: "\
            S 1 5 2 15 0 0 412\n\
            W 1 50000 412\nD 0 100\nD 0 101\nD 0 102\nD 1 1\nD 2 1\nD 3 1\n\
            D 4 100\nR 2\nD 6 100\nD 7 2\n\
            I 30\nD 8 2\nD 8 101\nD 8 102\nD 8 103\n\
            D 10 101\nD 10 102\nD 10 103\nD 13 101\nD 14 101\nD 15 101\n\
            D 11 101\nD 11 102\nD 11 103\nD 16 102\nD 17 102\nD 18 102\n\
            D 12 101\nD 12 102\nD 12 103\nD 19 103\nD 20 103\nD 21 103\n\
            D 9 101\nD 9 102\nD 9 103\nD 22 2\nD 23 2\nD 24 2\nT 2\n\
        ",
        printed: "\
            configurations 2\n0 15\n1 30\n\
            operations 2\n1 W 1 0 1 1 50000 412\n2 R 2 3 0 0 0 412\n\
            refusals 0\n\
        ",
    },
    Case {
        name: "a new set while a client writes: it goes on with its stamp",
        script: "\
            S 1 5 2 15 0 0 412\n\
            W 1 50000 412\nD 0 100\nD 0 101\nD 0 102\nD 1 1\nD 2 1\nD 3 1\n\
            D 4 100\nD 5 1\nI 30\nD 6 1\nD 5 1\nD 7 100\n\
            D 6 100\nD 6 101\nD 6 102\nD 6 103\nD 6 104\n\
            D 9 100\nD 9 102\nD 9 103\nD 13 101\nD 14 101\nD 15 101\n\
            D 10 100\nD 10 101\nD 10 103\nD 16 102\nD 17 102\nD 18 102\n\
            D 11 101\nD 11 102\nD 11 100\nD 19 103\nD 20 103\nD 21 103\n\
            D 7 101\nD 7 102\nD 7 103\nD 22 1\nD 23 1\nD 24 1\nT 1\n\
            R 2\nD 25 101\nD 26 2\n\
            D 27 101\nD 27 102\nD 27 103\nD 28 2\nD 29 2\nD 30 2\nT 2\n\
        ",
        printed: "\
            configurations 2\n0 15\n1 30\n\
            operations 2\n1 W 1 2 1 1 50000 412\n2 R 3 4 1 1 50000 412\n\
            refusals 1\n13 15 client\n\
        ",
    },
    Case {
        name: "a new set while a client writes back: it reads again, and finds a later write",
        script: "\
            S 1 5 2 15 0 0 412\n\
            W 1 50000 412\nD 0 100\nD 0 101\nD 0 102\n\
            D 1 1\nD 2 1\nD 3 1\n\
            D 4 100\nD 4 101\nD 4 102\n\
            D 5 1\nD 6 1\nD 7 1\nT 1\n\
            R 2\nD 8 101\nD 8 102\nD 8 103\nD 9 2\nD 10 2\nD 11 2\n\
            W 1 60000 412\nD 13 100\nD 13 101\nD 13 102\nD 14 1\nD 15 1\nD 16 1\n\
            D 17 100\nD 17 101\nD 17 102\nD 18 1\nD 19 1\nD 20 1\nT 1\n\
            I 30\nD 21 2\nD 12 103\nD 23 2\n\
            D 21 100\nD 21 101\nD 21 102\nD 21 103\n\
            D 24 100\nD 24 102\nD 24 103\nD 27 101\nD 28 101\nD 29 101\n\
            D 25 100\nD 25 101\nD 25 103\nD 30 102\nD 31 102\nD 32 102\n\
            D 26 100\nD 26 101\nD 26 102\nD 33 103\nD 34 103\nD 35 103\n\
            D 22 101\nD 22 102\nD 22 103\nD 36 2\nD 37 2\nD 38 2\nT 2\n\
        ",
        printed: "\
            configurations 2\n0 15\n1 30\n\
            operations 3\n1 W 1 2 1 1 50000 412\n2 R 3 6 2 1 60000 412\n1 W 4 5 2 1 60000 412\n\
            refusals 1\n40 15 client\n\
        ",
    },
    Case {
        name: "a new set for a client that is over: its operation stays over",
        script: "\
            S 1 5 2 15 0 0 412\n\
            W 1 50000 412\nD 0 100\nD 0 101\nD 0 102\n\
            D 1 1\nD 2 1\nD 3 1\n\
            D 4 100\nD 4 101\nD 4 102\n\
            D 5 1\nD 6 1\nD 7 1\n\
            I 30\nD 8 1\nD 9 100\nT 1\nR 1\nD 9 101\nD 10 1\nD 11 101\n\
        ",
        printed: "\
            configurations 2\n0 15\n1 30\n\
            operations 2\n1 W 1 2 1 1 50000 412\n1 R 3 0 0 0 0 0\n\
            refusals 1\n17 5 hall\n\
        ",
    },
    Case {
        name: "a write that is still reading takes its stamp in the new epoch",
        script: "\
            S 1 5 2 15 0 0 412\n\
            W 1 50000 412\nD 0 100\nD 0 101\nD 0 102\n\
            D 1 1\nD 2 1\nD 3 1\n\
            D 4 100\nD 4 101\nD 4 102\n\
            D 5 1\nD 6 1\nD 7 1\nT 1\n\
            W 2 60000 412\nD 8 100\nD 8 101\nD 9 2\nD 10 2\nI 30\nD 11 2\n\
            D 8 102\nD 13 2\n\
            D 11 100\nD 11 101\nD 11 102\nD 11 103\n\
            D 14 100\nD 14 102\nD 14 103\nD 17 101\nD 18 101\nD 19 101\n\
            D 15 100\nD 15 101\nD 15 103\nD 20 102\nD 21 102\nD 22 102\n\
            D 16 100\nD 16 101\nD 16 102\nD 23 103\nD 24 103\nD 25 103\n\
            D 12 101\nD 12 102\nD 12 103\nD 26 2\nD 27 2\nD 28 2\n\
            D 29 101\nD 29 102\nD 29 103\nD 30 2\nD 31 2\nD 32 2\n\
        ",
        printed: "\
            configurations 2\n0 15\n1 30\n\
            operations 2\n1 W 1 2 1 1 50000 412\n2 W 3 4 2 2 60000 412\n\
            refusals 1\n24 15 client\n\
        ",
    },
    Case {
        name: "a client passes over an epoch, a replica does not",
        script: "\
            S 1 5 2 15 0 0 412\n\
            I 30\nI 29\nD 1 1\nD 0 1\nD 1 101\n\
            D 0 101\nD 1 101\nD 0 101\nD 0 100\nD 1 100\nD 0 100\n\
            R 1\nD 4 100\nD 4 101\nD 5 1\nD 6 101\n\
        ",
        printed: "\
            configurations 3\n0 15\n1 30\n2 29\n\
            operations 1\n1 R 1 0 0 0 0 0\n\
            refusals 7\n5 16 client\n6 16 replica\n8 17 replica\n9 16 replica\n12 16 replica\n\
            14 17 replica\n17 17 replica\n\
        ",
    },
    Case {
        name: "two new sets while a client writes: still one stamp",
        script: "\
            S 1 5 2 15 0 0 412\n\
            W 1 50000 412\nD 0 100\nD 0 101\nD 0 102\nD 1 1\nD 2 1\nD 3 1\n\
            I 30\nI 15\nD 5 1\nD 6 1\nD 5 1\n\
            D 5 100\nD 5 101\nD 5 102\nD 5 103\n\
            D 9 100\nD 9 102\nD 9 103\nD 12 101\nD 13 101\nD 14 101\n\
            D 10 100\nD 10 101\nD 10 103\nD 15 102\nD 16 102\nD 17 102\n\
            D 11 100\nD 11 101\nD 11 102\nD 18 103\nD 19 103\nD 20 103\n\
            D 6 100\nD 6 101\nD 6 102\nD 6 103\n\
            D 21 101\nD 21 102\nD 21 103\nD 25 100\nD 26 100\nD 27 100\n\
            D 22 102\nD 22 103\nD 22 101\nD 28 101\nD 29 101\nD 30 101\n\
            D 23 101\nD 23 102\nD 23 103\nD 31 102\nD 32 102\nD 33 102\n\
            D 7 100\nD 34 1\nD 8 100\nD 8 101\nD 8 102\nD 35 1\nD 36 1\nD 37 1\n\
        ",
        printed: "\
            configurations 3\n0 15\n1 30\n2 15\n\
            operations 1\n1 W 1 2 1 1 50000 412\n\
            refusals 2\n13 16 client\n59 16 client\n\
        ",
    },
];

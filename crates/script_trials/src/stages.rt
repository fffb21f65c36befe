// Each kind of entry in each stage of a client's operation.
use crate::case::Case;

pub const CASES: [Case; 5] = [
    Case {
        name: "what comes to an idle client",
        script: "\
            S 1 4 2 15 1 0 412\n\
            M 100 4 1 0 0 0 0 100000000000412 0\nM 100 5 1 0 0 0 0 0 0\nM 100 8 1 0 0 0 0 0 0\n\
            M 100 7 0 0 0 0 0 15 0\n\
            D 0 1\nD 1 1\nD 2 1\nD 3 1\n\
            I 15\nD 4 1\nD 5 100\n\
            R 1\nD 5 101\nD 6 1\nD 7 101\nD 8 102\n\
        ",
        printed: "\
            configurations 2\n0 15\n1 15\n\
            operations 1\n1 R 1 0 0 0 0 0\n\
            refusals 5\n6 15 client\n7 15 client\n8 15 client\n9 16 client\n12 5 hall\n\
        ",
    },
    Case {
        name: "what comes to a reading client",
        script: "\
            S 1 4 2 15 1 0 412\n\
            R 1\nM 100 5 1 1 0 0 0 0 0\nM 100 4 1 2 0 0 0 100000000000412 0\n\
            M 100 4 1 0 0 0 0 100000000000412 0\nM 100 8 1 0 0 0 0 0 0\nM 100 8 1 1 0 0 0 0 0\n\
            D 1 1\nD 2 1\nD 3 1\nD 4 1\nD 5 1\nD 6 102\nD 6 2\n\
            M 100 7 0 0 0 0 0 15 0\nD 7 1\n\
            D 0 101\nD 0 102\nD 0 103\nD 8 1\nD 9 1\nD 10 1\n\
        ",
        printed: "\
            configurations 1\n0 15\n\
            operations 1\n1 R 1 2 0 0 0 412\n\
            refusals 7\n8 15 client\n9 15 client\n10 15 client\n11 15 client\n13 16 replica\n\
            14 16 client\n16 16 client\n\
        ",
    },
    Case {
        name: "what comes to a writing client",
        script: "\
            S 1 4 2 15 1 0 412\n\
            W 1 10 412\nD 0 101\nD 0 102\nD 0 103\nD 1 1\nD 2 1\nD 3 1\n\
            M 100 4 1 2 0 0 0 100000000000412 0\nM 100 5 1 1 0 0 0 0 0\nM 100 8 1 1 0 0 0 0 0\n\
            M 100 8 1 2 0 0 0 0 0\n\
            D 5 1\nD 6 1\nD 7 1\nD 8 1\nD 9 1\n\
            M 100 5 1 3 0 0 0 0 0\nD 10 1\n\
            D 4 101\nD 4 102\nD 4 103\nD 11 1\nD 12 1\nD 13 1\n\
        ",
        printed: "\
            configurations 1\n0 15\n\
            operations 1\n1 W 1 2 1 1 10 412\n\
            refusals 5\n13 15 client\n14 15 client\n15 15 client\n17 16 client\n19 15 client\n\
        ",
    },
    Case {
        name: "what comes to a client that writes back",
        script: "\
            S 1 4 2 15 1 0 412\n\
            W 1 50000 412\nD 0 100\nD 0 101\nD 0 102\n\
            D 1 1\nD 2 1\nD 3 1\n\
            D 4 100\nD 4 101\nD 4 102\n\
            D 5 1\nD 6 1\nD 7 1\nT 1\n\
            R 2\nD 8 101\nD 8 102\nD 8 103\nD 9 2\nD 10 2\nD 11 2\n\
            M 100 4 2 2 0 0 0 100000000000412 0\nM 100 5 2 1 0 0 0 0 0\nM 100 8 2 1 0 0 0 0 0\n\
            M 100 8 2 2 0 0 0 0 0\n\
            D 13 2\nD 14 2\nD 15 2\nD 16 2\nD 17 2\n\
            D 12 101\nD 12 102\nD 12 103\nD 18 2\nD 19 2\nD 20 2\n\
        ",
        printed: "\
            configurations 1\n0 15\n\
            operations 2\n1 W 1 2 1 1 50000 412\n2 R 3 4 1 1 50000 412\n\
            refusals 4\n27 15 client\n28 15 client\n29 15 client\n31 16 client\n\
        ",
    },
    Case {
        name: "what comes to a client that is over",
        script: "\
            S 1 4 2 15 1 0 412\n\
            R 1\nD 0 101\nD 0 102\nD 0 103\nD 1 1\nD 2 1\nD 3 1\n\
            D 0 100\nD 4 1\n\
            M 100 5 1 1 0 0 0 0 0\nD 5 1\nM 100 8 1 1 0 0 0 0 0\nD 6 1\n\
            M 100 7 0 0 0 0 0 15 0\nD 7 1\nI 15\nD 8 1\nD 8 1\nD 9 100\n\
            T 1\nR 1\nD 9 101\nD 10 1\nD 11 101\nD 12 102\n\
        ",
        printed: "\
            configurations 2\n0 15\n1 15\n\
            operations 2\n1 R 1 2 0 0 0 412\n1 R 3 0 0 0 0 0\n\
            refusals 6\n10 15 client\n12 15 client\n14 15 client\n16 16 client\n19 16 client\n20 5 hall\n\
        ",
    },
];

// How replicas take new sets and fetch their stock.
use crate::case::Case;

pub const CASES: [Case; 9] = [
    Case {
        name: "a value goes through three epochs",
        script: "\
            S 1 6 2 15 0 0 412\n\
            W 1 50000 412\nD 0 100\nD 0 101\nD 0 102\n\
            D 1 1\nD 2 1\nD 3 1\n\
            D 4 100\nD 4 101\nD 4 102\n\
            D 5 1\nD 6 1\nD 7 1\nT 1\n\
            I 30\nD 8 100\nD 8 101\nD 8 102\nD 8 103\nD 8 104\nD 8 105\n\
            D 9 100\nD 9 102\nD 9 103\nD 13 101\nD 14 101\nD 15 101\n\
            D 10 100\nD 10 101\nD 10 103\nD 16 102\nD 17 102\nD 18 102\n\
            D 11 101\nD 11 102\nD 11 100\nD 19 103\nD 20 103\nD 21 103\n\
            D 12 101\nD 12 102\nD 12 103\nD 22 104\nD 23 104\nD 24 104\n\
            I 60\nD 25 102\nD 25 103\nD 25 104\nD 25 105\nD 25 101\n\
            D 26 101\nD 26 103\nD 26 104\nD 30 102\nD 31 102\nD 32 102\n\
            D 27 101\nD 27 102\nD 27 104\nD 33 103\nD 34 103\nD 35 103\n\
            D 29 101\nD 29 102\nD 29 103\nD 36 105\nD 37 105\nD 38 105\n\
            R 2\nD 39 102\nD 40 2\nD 41 101\nD 41 104\nD 41 102\nD 41 103\nD 41 105\n\
            D 42 2\nD 43 2\nD 44 2\nT 2\n\
        ",
        printed: "\
            configurations 3\n0 15\n1 30\n2 60\n\
            operations 2\n1 W 1 2 1 1 50000 412\n2 R 3 4 1 1 50000 412\n\
            refusals 2\n74 13 replica\n75 17 replica\n\
        ",
    },
    Case {
        name: "STOCK: what is refused, and in which order",
        script: "\
            S 1 5 1 15 17 0 412\n\
            I 30\nD 0 101\n\
            M 104 6 101 0 1 5 1 7 64\nD 2 101\nM 104 6 101 0 0 5 1 7 64\nD 3 101\n\
            M 100 6 101 0 0 5 1 7 64\nD 4 101\nM 100 6 101 0 0 0 0 100000000000412 0\nD 5 101\nD 5 101\n\
            D 4 101\n\
            M 100 6 102 0 0 0 0 100000000000412 0\nD 6 102\n\
            M 100 6 103 0 4294967295 0 0 100000000000412 0\nD 7 103\n\
        ",
        printed: "\
            configurations 2\n0 15\n1 30\n\
            operations 0\n\
            refusals 7\n5 15 replica\n7 13 replica\n9 12 replica\n12 14 replica\n13 14 replica\n\
            15 15 replica\n17 15 replica\n\
        ",
    },
    Case {
        name: "STOCK for a replica that is ready again or has gone",
        script: "\
            S 1 5 1 15 1 0 412\n\
            I 30\nD 0 100\nD 0 101\nD 0 102\nD 0 103\n\
            D 1 100\nD 1 102\nD 1 103\nD 4 101\nD 5 101\nD 6 101\n\
            D 6 101\nD 1 101\nD 7 101\n\
            M 100 6 100 0 0 0 0 100000000000412 0\nD 8 100\n\
        ",
        printed: "\
            configurations 2\n0 15\n1 30\n\
            operations 0\n\
            refusals 3\n13 15 replica\n15 15 replica\n17 15 replica\n\
        ",
    },
    Case {
        name: "TRANSFER: what is refused, and in which order",
        script: "\
            S 1 5 1 15 1 0 412\n\
            M 100 3 0 0 0 0 0 16 0\nD 0 101\nM 100 3 0 0 0 0 0 15 0\nD 1 104\nD 1 101\nD 2 100\nD 2 101\n\
            I 30\nM 100 3 0 0 1 0 0 30 1\nD 5 100\nM 100 3 0 0 1 0 0 30 0\nD 6 100\nD 6 104\nD 4 104\n\
            D 6 104\nD 4 101\nD 1 101\n\
        ",
        printed: "\
            configurations 2\n0 15\n1 30\n\
            operations 0\n\
            refusals 5\n3 12 replica\n5 13 replica\n8 11 hall\n11 12 replica\n13 13 replica\n\
        ",
    },
    Case {
        name: "a member gives no stock of an epoch that it is still in",
        script: "\
            S 1 5 2 15 0 0 412\n\
            I 30\nD 0 101\nD 1 102\nD 2 101\nD 3 102\nD 1 102\n\
            D 0 103\nD 6 101\n\
        ",
        printed: "configurations 2\n0 15\n1 30\noperations 0\nrefusals 0\n",
    },
    Case {
        name: "READ: another epoch comes before the set, the set before being ready",
        script: "\
            S 1 5 2 15 0 0 412\n\
            R 1\nI 30\nD 1 2\nR 2\nD 1 100\nD 1 101\n\
            D 0 100\nD 0 101\nD 2 100\nD 2 101\nD 2 102\nD 2 104\n\
            D 4 1\nD 6 2\nD 7 2\n\
        ",
        printed: "\
            configurations 2\n0 15\n1 30\n\
            operations 2\n1 R 1 0 0 0 0 0\n2 R 2 0 0 0 0 0\n\
            refusals 2\n10 13 replica\n11 17 replica\n\
        ",
    },
    Case {
        name: "CONFIG for a replica: the epoch, then the seal, then being ready",
        script: "\
            S 1 5 1 15 1 0 412\n\
            I 30\nI 15\nD 1 101\nM 100 7 0 0 1 0 0 15 0\nD 2 101\nD 0 101\n\
            M 100 7 0 0 2 0 0 30 1\nD 4 101\nD 1 101\nD 0 101\n\
            D 0 100\nD 1 100\nD 0 100\nD 1 100\n\
        ",
        printed: "\
            configurations 3\n0 15\n1 30\n2 15\n\
            operations 0\n\
            refusals 7\n4 16 replica\n6 12 replica\n9 12 replica\n10 17 replica\n11 16 replica\n\
            14 16 replica\n15 16 replica\n\
        ",
    },
    Case {
        name: "a new member is ready after 2f+1, and takes the highest stock",
        script: "\
            S 1 5 2 15 1 0 412\n\
            W 1 50000 412\nD 0 100\nD 0 101\nD 0 102\n\
            D 1 1\nD 2 1\nD 3 1\n\
            D 4 100\nD 4 101\nD 4 102\n\
            D 5 1\nD 6 1\nD 7 1\nT 1\n\
            I 30\nD 8 104\nD 8 101\nD 8 103\nD 8 2\nR 2\n\
            M 100 6 104 0 0 0 0 100000000000412 0\nD 9 101\nD 9 103\n\
            D 13 104\nD 15 104\nD 12 104\nD 14 104\nD 12 104\n\
            D 8 100\n\
            D 10 100\nD 10 101\nD 10 103\nD 17 101\nD 18 101\nD 19 101\n\
            D 11 100\nD 11 101\nD 11 103\nD 20 103\nD 21 103\nD 22 103\n\
            D 12 101\nD 12 103\nD 16 2\nD 23 2\nD 24 2\nT 2\n\
        ",
        printed: "\
            configurations 2\n0 15\n1 30\n\
            operations 2\n1 W 1 2 1 1 50000 412\n2 R 3 4 1 1 50000 412\n\
            refusals 1\n27 17 replica\n\
        ",
    },
    Case {
        name: "a liar's stock with a pair that nobody sealed",
        script: "\
            S 1 5 1 15 1 0 412\n\
            I 30\nD 0 104\n\
            M 100 6 104 0 0 3 1 9 64\nD 2 104\nM 100 6 104 0 0 1 100 9 6400\nD 3 104\n\
            D 1 101\nD 1 102\nD 4 104\n\
        ",
        printed: "configurations 2\n0 15\n1 30\noperations 0\nrefusals 2\n5 12 replica\n7 12 replica\n",
    },
];

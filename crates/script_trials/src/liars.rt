// What a marked replica can say, and what is believed of it.
use crate::case::Case;

pub const CASES: [Case; 11] = [
    Case {
        name: "forged pairs are not counted",
        script: "\
            S 1 4 1 15 1 0 412\n\
            R 1\n\
            M 100 4 1 1 0 9 1 100000001000412 64\nD 1 1\n\
            M 100 4 1 1 0 0 0 100000001000412 0\nD 2 1\n\
            M 100 4 1 1 0 1 0 100000000000412 0\nD 3 1\n\
            M 100 4 1 1 0 0 1 100000000000412 0\nD 4 1\n\
            M 100 4 1 1 0 0 0 100000000000412 1\nD 5 1\n\
            M 100 4 1 1 0 1 100 100000001000412 6400\nD 6 1\n\
            M 100 4 1 1 0 1 2 100000001000412 128\nD 7 1\n\
            D 0 101\nD 0 102\nD 8 1\nD 9 1\nM 100 4 1 1 0 0 0 100000000000412 0\nD 10 1\n\
        ",
        printed: "\
            configurations 1\n0 15\n\
            operations 1\n1 R 1 2 0 0 0 412\n\
            refusals 7\n4 12 client\n6 12 client\n8 12 client\n10 12 client\n12 12 client\n14 12 client\n\
            16 12 client\n\
        ",
    },
    Case {
        name: "the second answer of one replica is refused, whatever it says",
        script: "\
            S 1 4 2 15 1 0 412\n\
            W 1 50000 412\nD 0 100\nD 0 101\nD 0 102\n\
            D 1 1\nD 2 1\nD 3 1\n\
            D 4 100\nD 4 101\nD 4 102\n\
            D 5 1\nD 6 1\nD 7 1\nT 1\n\
            R 2\nM 100 4 2 1 0 0 0 100000000000412 0\nM 100 4 2 1 0 1 1 100005000000412 64\n\
            M 100 4 2 1 0 7 1 5 64\n\
            D 9 2\nD 10 2\nD 9 2\nD 11 2\n\
            D 8 101\nD 8 102\nD 12 2\nD 13 2\n\
            D 14 101\nD 14 102\nD 14 103\nD 15 2\nD 16 2\nD 17 2\n\
        ",
        printed: "\
            configurations 1\n0 15\n\
            operations 2\n1 W 1 2 1 1 50000 412\n2 R 3 4 1 1 50000 412\n\
            refusals 3\n21 14 client\n22 14 client\n23 14 client\n\
        ",
    },
    Case {
        name: "two faces: one client is shown the old pair, the other the new",
        script: "\
            S 1 4 2 15 1 0 412\n\
            W 1 50000 412\nD 0 100\nD 0 101\nD 0 102\n\
            D 1 1\nD 2 1\nD 3 1\n\
            D 4 100\nD 4 101\nD 4 102\n\
            D 5 1\nD 6 1\nD 7 1\nT 1\n\
            R 1\nR 2\nM 100 4 1 3 0 1 1 100005000000412 64\nM 100 4 2 1 0 0 0 100000000000412 0\n\
            D 8 101\nD 8 102\nD 9 101\nD 9 102\n\
            D 10 1\nD 12 1\nD 13 1\n\
            D 11 2\nD 14 2\nD 15 2\n\
            D 16 101\nD 16 102\nD 16 103\nD 17 2\nD 18 2\nD 19 2\n\
        ",
        printed: "\
            configurations 1\n0 15\n\
            operations 3\n1 W 1 2 1 1 50000 412\n1 R 3 5 1 1 50000 412\n2 R 4 6 1 1 50000 412\n\
            refusals 0\n\
        ",
    },
    Case {
        name: "a confirmation without a save",
        script: "\
            S 1 4 2 15 1 0 412\n\
            W 1 50000 412\nD 0 100\nD 0 101\nD 0 102\nD 1 1\nD 2 1\nD 3 1\n\
            M 100 5 1 2 0 0 0 0 0\nD 4 101\nD 4 102\nD 5 1\nD 6 1\nD 7 1\nT 1\n\
            R 2\nD 8 100\nD 8 103\nD 8 102\nD 9 2\nD 10 2\nD 11 2\n\
            D 12 100\nD 12 103\nD 12 102\nD 13 2\nD 14 2\nD 15 2\n\
        ",
        printed: "\
            configurations 1\n0 15\n\
            operations 2\n1 W 1 2 1 1 50000 412\n2 R 3 4 1 1 50000 412\n\
            refusals 0\n\
        ",
    },
    Case {
        name: "a confirmation of a round that is not open yet counts once it is",
        script: "\
            S 1 4 1 15 1 0 412\n\
            W 1 10 412\nM 100 5 1 2 0 0 0 0 0\nD 1 1\n\
            D 0 101\nD 0 102\nD 0 103\nD 2 1\nD 3 1\nD 4 1\n\
            D 1 1\nD 1 1\nD 5 101\nD 5 102\nD 6 1\nD 7 1\n\
        ",
        printed: "\
            configurations 1\n0 15\n\
            operations 1\n1 W 1 2 1 1 10 412\n\
            refusals 2\n4 15 client\n12 14 client\n\
        ",
    },
    Case {
        name: "confirmations for a reader, pairs for a writer",
        script: "\
            S 1 4 1 15 1 0 412\n\
            W 1 10 412\nM 100 5 1 1 0 0 0 0 0\nD 1 1\nM 100 4 1 2 0 0 0 100000000000412 0\nD 2 1\n\
            D 0 101\nD 0 102\nD 0 103\nD 3 1\nD 4 1\nD 5 1\n\
            D 2 1\nD 1 1\n\
            D 6 100\nD 6 101\nD 6 102\nD 7 1\nD 8 1\nD 9 1\n\
        ",
        printed: "\
            configurations 1\n0 15\n\
            operations 1\n1 W 1 2 1 1 10 412\n\
            refusals 4\n4 15 client\n6 15 client\n13 15 client\n14 15 client\n\
        ",
    },
    Case {
        name: "a liar outside the set: the round, then the set, then the rest",
        script: "\
            S 1 5 1 15 17 0 412\n\
            R 1\nM 104 4 1 2 0 0 0 100000000000412 0\nM 104 4 1 1 0 0 0 100000000000412 0\n\
            M 104 4 1 1 0 5 1 77 64\n\
            D 1 1\nD 2 1\nD 3 1\n\
            M 100 4 1 1 0 0 0 100000000000412 0\nM 100 4 1 1 0 5 1 77 64\nM 100 4 1 2 0 5 1 77 64\n\
            D 5 1\nD 4 1\nD 5 1\nD 6 1\n\
        ",
        printed: "\
            configurations 1\n0 15\n\
            operations 1\n1 R 1 0 0 0 0 0\n\
            refusals 6\n6 15 client\n7 13 client\n8 13 client\n12 12 client\n14 14 client\n15 15 client\n\
        ",
    },
    Case {
        name: "a pair shown before it is sealed is genuine once it is",
        script: "\
            S 1 4 2 15 1 0 412\n\
            R 2\nM 100 4 2 1 0 1 1 100000001000412 64\nD 1 2\n\
            W 1 10 412\nD 2 101\nD 2 102\nD 2 103\nD 3 1\nD 4 1\nD 5 1\n\
            D 1 2\nD 0 101\nD 0 102\nD 7 2\nD 8 2\n\
            D 9 101\nD 9 102\nD 9 103\nD 10 2\nD 11 2\nD 12 2\n\
        ",
        printed: "\
            configurations 1\n0 15\n\
            operations 2\n2 R 1 3 1 1 10 412\n1 W 2 0 1 1 10 412\n\
            refusals 1\n4 12 client\n\
        ",
    },
    Case {
        name: "made-up configurations for a client",
        script: "\
            S 1 5 1 15 1 0 412\n\
            M 100 7 0 0 0 0 0 15 0\nD 0 1\n\
            M 100 7 0 0 1 0 0 30 0\nD 1 1\n\
            M 100 7 0 0 0 0 0 30 0\nD 2 1\n\
            I 30\nM 100 7 0 0 1 0 0 29 0\nD 4 1\nM 100 7 0 0 2 0 0 30 0\nD 5 1\nM 100 7 0 0 1 0 0 30 1\n\
            D 6 1\n\
            M 100 7 200 9 1 9 9 30 0\nD 7 1\nD 7 1\nD 3 1\n\
        ",
        printed: "\
            configurations 2\n0 15\n1 30\n\
            operations 0\n\
            refusals 8\n3 16 client\n5 12 client\n7 16 client\n10 12 client\n12 12 client\n14 12 client\n\
            17 16 client\n18 16 client\n\
        ",
    },
    Case {
        name: "made-up pairs and configurations for a replica",
        script: "\
            S 1 5 1 15 1 0 412\n\
            M 100 7 0 0 1 0 0 30 0\nD 0 101\n\
            M 100 7 0 0 2 0 0 30 0\nD 1 101\n\
            M 100 7 0 0 0 0 0 15 0\nD 2 101\n\
            M 100 3 0 0 1 0 0 30 0\nD 3 101\n\
            M 100 3 0 0 0 0 0 15 0\nD 4 101\nD 4 104\n\
            M 100 6 101 0 0 9 1 7 64\nD 6 101\n\
            M 100 3 0 0 0 0 0 30 0\nD 7 101\n\
        ",
        printed: "\
            configurations 1\n0 15\n\
            operations 0\n\
            refusals 7\n3 12 replica\n5 16 replica\n7 16 replica\n9 12 replica\n12 13 replica\n\
            14 15 replica\n16 12 replica\n\
        ",
    },
    Case {
        name: "a client that is told again and again that it is behind",
        script: "\
            S 1 4 1 15 1 0 412\n\
            M 100 8 1 0 0 0 0 0 0\nD 0 1\n\
            R 1\nD 0 1\nM 100 8 1 1 0 0 0 0 0\nD 2 1\nD 2 1\nD 3 101\nD 4 1\nD 5 100\n\
            M 100 8 1 2 9 0 0 0 0\nD 5 1\n\
        ",
        printed: "\
            configurations 1\n0 15\n\
            operations 1\n1 R 1 0 0 0 0 0\n\
            refusals 6\n3 15 client\n5 15 client\n9 16 replica\n10 16 client\n11 5 hall\n13 15 client\n\
        ",
    },
];

// Reads and writes with honest replicas only: late, repeated and lost entries, several clients, operations called off.
use crate::case::Case;

pub const CASES: [Case; 18] = [
    Case {
        name: "a read of the opening value",
        script: "\
            S 1 4 1 15 0 0 412\n\
            R 1\nD 0 100\nD 0 101\nD 0 102\n\
            D 1 1\nD 1 1\nD 2 1\nD 3 1\nT 1\n\
        ",
        printed: "configurations 1\n0 15\noperations 1\n1 R 1 2 0 0 0 412\nrefusals 1\n7 14 client\n",
    },
    Case {
        name: "a write",
        script: "\
            S 1 4 1 15 0 0 412\n\
            W 1 50000 412\nD 0 100\nD 0 101\nD 0 102\n\
            D 1 1\nD 2 1\nD 3 1\n\
            D 4 100\nD 4 101\nD 4 102\n\
            D 5 1\nD 6 1\nD 7 1\nT 1\n\
        ",
        printed: "configurations 1\n0 15\noperations 1\n1 W 1 2 1 1 50000 412\nrefusals 0\n",
    },
    Case {
        name: "a read after a write",
        script: "\
            S 1 4 2 15 0 0 412\n\
            W 1 50000 412\nD 0 100\nD 0 101\nD 0 102\n\
            D 1 1\nD 2 1\nD 3 1\n\
            D 4 100\nD 4 101\nD 4 102\n\
            D 5 1\nD 6 1\nD 7 1\nT 1\n\
            R 2\nD 8 100\nD 8 101\nD 8 102\n\
            D 9 2\nD 10 2\nD 11 2\nT 2\n\
        ",
        printed: "\
            configurations 1\n0 15\n\
            operations 2\n1 W 1 2 1 1 50000 412\n2 R 3 4 1 1 50000 412\n\
            refusals 0\n\
        ",
    },
    Case {
        name: "a read that writes back what one replica has missed",
        script: "\
            S 1 4 2 15 0 0 412\n\
            W 1 50000 412\nD 0 100\nD 0 101\nD 0 102\n\
            D 1 1\nD 2 1\nD 3 1\n\
            D 4 100\nD 4 101\nD 4 102\n\
            D 5 1\nD 6 1\nD 7 1\nT 1\n\
            R 2\nD 8 101\nD 8 102\nD 8 103\n\
            D 9 2\nD 10 2\nD 11 2\nT 2\n\
            D 12 101\nD 12 102\nD 12 103\n\
            D 13 2\nD 14 2\nD 15 2\nT 2\n\
        ",
        printed: "\
            configurations 1\n0 15\n\
            operations 2\n1 W 1 2 1 1 50000 412\n2 R 3 4 1 1 50000 412\n\
            refusals 1\n23 19 client\n\
        ",
    },
    Case {
        name: "the order in which pairs come does not matter to what is written back",
        script: "\
            S 1 4 2 15 0 0 412\n\
            W 1 50000 412\nD 0 100\nD 0 101\nD 0 102\n\
            D 1 1\nD 2 1\nD 3 1\n\
            D 4 100\nD 4 101\nD 4 102\n\
            D 5 1\nD 6 1\nD 7 1\nT 1\n\
            R 2\nD 8 103\nD 8 102\nD 8 101\n\
            D 9 2\nD 10 2\nD 11 2\n\
            D 12 103\nD 12 100\nD 12 101\n\
            D 13 2\nD 14 2\nD 15 2\nT 2\n\
            R 1\nD 16 103\nD 16 102\nD 16 101\nD 17 1\nD 18 1\nD 19 1\n\
        ",
        printed: "\
            configurations 1\n0 15\n\
            operations 3\n1 W 1 2 1 1 50000 412\n2 R 3 4 1 1 50000 412\n1 R 5 6 1 1 50000 412\n\
            refusals 0\n\
        ",
    },
    Case {
        name: "the second write of a client has the next count",
        script: "\
            S 1 4 1 15 0 0 412\n\
            W 1 50000 412\nD 0 100\nD 0 101\nD 0 102\n\
            D 1 1\nD 2 1\nD 3 1\n\
            D 4 100\nD 4 101\nD 4 102\n\
            D 5 1\nD 6 1\nD 7 1\nT 1\n\
            W 1 -50000 413\nD 8 101\nD 8 102\nD 8 103\n\
            D 9 1\nD 10 1\nD 11 1\n\
            D 12 101\nD 12 102\nD 12 103\n\
            D 13 1\nD 14 1\nD 15 1\n\
        ",
        printed: "\
            configurations 1\n0 15\n\
            operations 2\n1 W 1 2 1 1 50000 412\n1 W 3 4 2 1 -50000 413\n\
            refusals 0\n\
        ",
    },
    Case {
        name: "of two writes at once with one count the higher writer's stays",
        script: "\
            S 1 4 2 15 0 0 412\n\
            W 1 10 412\nW 2 20 413\n\
            D 0 100\nD 0 101\nD 0 102\nD 1 100\nD 1 101\nD 1 102\n\
            D 2 1\nD 3 1\nD 4 1\nD 5 2\nD 6 2\nD 7 2\n\
            D 9 100\nD 9 101\nD 9 102\nD 10 2\nD 11 2\nD 12 2\n\
            D 8 100\nD 8 101\nD 8 102\nD 13 1\nD 14 1\nD 15 1\n\
            T 1\nR 1\nD 16 100\nD 16 101\nD 16 102\nD 17 1\nD 18 1\nD 19 1\n\
        ",
        printed: "\
            configurations 1\n0 15\n\
            operations 3\n1 W 1 4 1 1 10 412\n2 W 2 3 1 2 20 413\n1 R 5 6 1 2 20 413\n\
            refusals 0\n\
        ",
    },
    Case {
        name: "a higher count comes before a higher writer",
        script: "\
            S 1 4 2 15 0 0 412\n\
            W 2 10 412\nD 0 100\nD 0 101\nD 0 102\nD 1 2\nD 2 2\nD 3 2\nD 4 100\nD 4 101\nD 4 102\nD 5 2\n\
            D 6 2\nD 7 2\nT 2\n\
            W 1 20 413\nD 8 100\nD 8 101\nD 8 102\nD 9 1\nD 10 1\nD 11 1\nD 12 100\nD 12 101\nD 12 102\n\
            D 13 1\nD 14 1\nD 15 1\nT 1\n\
            R 2\nD 16 100\nD 16 101\nD 16 102\nD 17 2\nD 18 2\nD 19 2\nT 2\n\
        ",
        printed: "\
            configurations 1\n0 15\n\
            operations 3\n2 W 1 2 1 2 10 412\n1 W 3 4 2 1 20 413\n2 R 5 6 2 1 20 413\n\
            refusals 0\n\
        ",
    },
    Case {
        name: "a write called off counts in its client's last count",
        script: "\
            S 1 4 1 15 0 0 412\n\
            W 1 10 412\nD 0 100\nD 0 101\nD 0 102\nD 1 1\nD 2 1\nD 3 1\nO 1\n\
            W 1 20 412\nD 5 100\nD 5 101\nD 5 102\nD 6 1\nD 7 1\nD 8 1\n\
            D 9 100\nD 9 101\nD 9 102\nD 10 1\nD 11 1\nD 12 1\n\
        ",
        printed: "configurations 1\n0 15\noperations 2\n1 W 1 0 1 1 10 412\n1 W 2 3 2 1 20 412\nrefusals 0\n",
    },
    Case {
        name: "own last count 3, highest heard 1: count 4",
        script: "\
            S 1 4 2 15 0 0 412\n\
            W 1 1 412\nD 0 100\nD 0 101\nD 0 102\nD 1 1\nD 2 1\nD 3 1\nO 1\n\
            W 1 2 412\nD 5 100\nD 5 101\nD 5 102\nD 6 1\nD 7 1\nD 8 1\nO 1\n\
            W 1 3 412\nD 10 100\nD 10 101\nD 10 102\nD 11 1\nD 12 1\nD 13 1\nO 1\n\
            W 2 4 412\nD 15 100\nD 15 101\nD 15 102\nD 16 2\nD 17 2\nD 18 2\nD 19 100\nD 19 101\n\
            D 19 102\nD 20 2\nD 21 2\nD 22 2\n\
            W 1 5 412\nD 23 100\nD 23 101\nD 23 102\nD 24 1\nD 25 1\nD 26 1\nD 27 100\nD 27 101\n\
            D 27 102\nD 28 1\nD 29 1\nD 30 1\n\
        ",
        printed: "\
            configurations 1\n0 15\n\
            operations 5\n1 W 1 0 1 1 1 412\n1 W 2 0 2 1 2 412\n1 W 3 0 3 1 3 412\n2 W 4 5 1 2 4 412\n\
            1 W 6 7 4 1 5 412\n\
            refusals 0\n\
        ",
    },
    Case {
        name: "a write called off before its stamp has none",
        script: "\
            S 1 4 1 15 0 0 412\n\
            W 1 10 412\nD 0 100\nD 0 101\nD 0 102\nD 1 1\nD 2 1\nO 1\nD 3 1\n\
            W 1 20 412\nD 4 100\nD 4 101\nD 4 102\nD 5 1\nD 6 1\nD 7 1\n\
        ",
        printed: "\
            configurations 1\n0 15\n\
            operations 2\n1 W 1 0 0 0 10 412\n1 W 2 0 1 1 20 412\n\
            refusals 1\n9 15 client\n\
        ",
    },
    Case {
        name: "a write called off shows up later",
        script: "\
            S 1 4 2 15 0 0 412\n\
            W 1 10 412\nD 0 100\nD 0 101\nD 0 102\nD 1 1\nD 2 1\nD 3 1\nO 1\n\
            D 4 103\nD 5 1\n\
            R 2\nD 6 101\nD 6 102\nD 6 103\nD 7 2\nD 8 2\nD 9 2\n\
            D 10 100\nD 10 101\nD 10 102\nD 11 2\nD 12 2\nD 13 2\nT 2\n\
        ",
        printed: "\
            configurations 1\n0 15\n\
            operations 2\n1 W 1 0 1 1 10 412\n2 R 2 3 1 1 10 412\n\
            refusals 1\n11 15 client\n\
        ",
    },
    Case {
        name: "a write called off that a later write passes over",
        script: "\
            S 1 4 2 15 0 0 412\n\
            W 1 10 412\nD 0 100\nD 0 101\nD 0 102\nD 1 1\nD 2 1\nD 3 1\nO 1\n\
            W 2 20 412\nD 5 100\nD 5 101\nD 5 102\nD 6 2\nD 7 2\nD 8 2\n\
            D 9 100\nD 9 101\nD 9 102\nD 10 2\nD 11 2\nD 12 2\n\
            D 4 100\nD 4 101\nD 4 102\nD 4 103\n\
            R 1\nD 17 103\nD 17 100\nD 17 101\nD 18 1\nD 19 1\nD 20 1\n\
            D 21 103\nD 21 100\nD 21 101\nD 22 1\nD 23 1\nD 24 1\n\
        ",
        printed: "\
            configurations 1\n0 15\n\
            operations 3\n1 W 1 0 1 1 10 412\n2 W 2 3 1 2 20 412\n1 R 4 5 1 2 20 412\n\
            refusals 0\n\
        ",
    },
    Case {
        name: "entries delivered again and late",
        script: "\
            S 1 4 1 15 0 0 412\n\
            W 1 10 412\nD 0 100\nD 0 100\nD 0 101\n\
            D 1 1\nD 2 1\nD 3 1\nD 0 102\nD 4 1\nD 4 1\n\
            D 5 100\nD 5 100\nD 5 101\nD 5 103\nD 6 1\nD 7 1\nD 8 1\nD 6 1\nD 9 1\nD 9 1\nD 1 1\n\
            T 1\nD 9 1\n\
        ",
        printed: "\
            configurations 1\n0 15\n\
            operations 1\n1 W 1 2 1 1 10 412\n\
            refusals 7\n7 14 client\n11 15 client\n17 14 client\n19 14 client\n21 15 client\n\
            22 15 client\n24 15 client\n\
        ",
    },
    Case {
        name: "f of 2 needs five answers",
        script: "\
            S 2 7 1 127 0 0 412\nR 1\n\
            D 0 100\nD 0 101\nD 0 102\nD 0 103\nD 0 104\n\
            D 1 1\nD 2 1\nD 3 1\nD 4 1\nT 1\nD 5 1\nT 1\n\
        ",
        printed: "configurations 1\n0 127\noperations 1\n1 R 1 2 0 0 0 412\nrefusals 1\n12 19 client\n",
    },
    Case {
        name: "two reads at once, each with its moments",
        script: "\
            S 1 4 2 15 0 0 412\n\
            R 1\nR 2\nD 0 100\nD 0 101\nD 0 102\nD 1 100\nD 1 101\nD 1 102\n\
            D 5 2\nD 6 2\nD 7 2\nD 2 1\nD 3 1\nD 4 1\n\
            T 2\nR 2\nD 8 100\nD 8 101\nD 8 102\nD 9 2\nD 10 2\nD 11 2\n\
        ",
        printed: "\
            configurations 1\n0 15\n\
            operations 3\n1 R 1 4 0 0 0 412\n2 R 2 3 0 0 0 412\n2 R 5 6 0 0 0 412\n\
            refusals 0\n\
        ",
    },
    Case {
        name: "a read called off",
        script: "\
            S 1 4 2 15 0 0 412\n\
            R 1\nD 0 100\nD 1 1\nO 1\nD 1 1\n\
            R 1\nD 1 1\nD 2 100\nD 2 101\nD 2 102\nD 3 1\nD 4 1\nD 5 1\nT 1\n\
        ",
        printed: "\
            configurations 1\n0 15\n\
            operations 2\n1 R 1 0 0 0 0 0\n1 R 2 3 0 0 0 412\n\
            refusals 2\n6 15 client\n8 15 client\n\
        ",
    },
    Case {
        name: "a read called off while it writes back",
        script: "\
            S 1 4 2 15 0 0 412\n\
            W 1 50000 412\nD 0 100\nD 0 101\nD 0 102\n\
            D 1 1\nD 2 1\nD 3 1\n\
            D 4 100\nD 4 101\nD 4 102\n\
            D 5 1\nD 6 1\nD 7 1\nT 1\n\
            R 2\nD 8 101\nD 8 102\nD 8 103\n\
            D 9 2\nD 10 2\nD 11 2\nO 2\n\
            D 12 103\nD 13 2\n\
            R 2\nD 14 103\nD 14 102\nD 14 101\nD 15 2\nD 16 2\nD 17 2\n\
        ",
        printed: "\
            configurations 1\n0 15\n\
            operations 3\n1 W 1 2 1 1 50000 412\n2 R 3 0 0 0 0 0\n2 R 4 5 1 1 50000 412\n\
            refusals 1\n25 15 client\n\
        ",
    },
];

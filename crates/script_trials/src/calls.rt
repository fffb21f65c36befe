// The calls of a hall, what each refuses, and which refusal comes first.
use crate::case::Case;

pub const CASES: [Case; 13] = [
    Case {
        name: "sets that cannot be issued",
        script: "S 1 6 1 15 33 0 412\nI 7\nI 31\nI 71\nI 51\nI 30\nI 35\nI 0\n",
        printed: "\
            configurations 2\n0 15\n1 30\n\
            operations 0\n\
            refusals 6\n2 2 hall\n3 2 hall\n4 2 hall\n5 3 hall\n7 2 hall\n8 2 hall\n\
        ",
    },
    Case {
        name: "a begin for no client",
        script: "S 1 4 2 15 0 0 412\nR 0\nR 3\nR 33\nR 100\nW 0 5 412\nW 3 5 412\n",
        printed: "\
            configurations 1\n0 15\n\
            operations 0\n\
            refusals 6\n2 5 hall\n3 5 hall\n4 5 hall\n5 5 hall\n6 5 hall\n7 5 hall\n\
        ",
    },
    Case {
        name: "a begin while an operation is open, or over and not collected",
        script: "\
            S 1 4 1 15 0 0 412\nR 1\nR 1\nW 1 5 412\n\
            D 0 100\nD 0 101\nD 0 102\nD 1 1\nD 2 1\nD 3 1\n\
            R 1\nT 1\nR 1\n\
        ",
        printed: "\
            configurations 1\n0 15\n\
            operations 2\n1 R 1 2 0 0 0 412\n1 R 3 0 0 0 0 0\n\
            refusals 3\n3 7 client\n4 7 client\n11 7 client\n\
        ",
    },
    Case {
        name: "a value that is none comes before every other refusal of a write",
        script: "S 1 4 1 15 0 0 412\nW 2 1000000001 0\nR 1\nW 1 0 100000\nW 2 0 0\nW 1 0 0\n",
        printed: "\
            configurations 1\n0 15\n\
            operations 1\n1 R 1 0 0 0 0 0\n\
            refusals 4\n2 21 kind\n4 21 kind\n5 5 hall\n6 7 client\n\
        ",
    },
    Case {
        name: "a delivery of no entry, or to nobody",
        script: "\
            S 1 4 1 15 0 0 412\nD 0 100\nR 1\nD 1 100\nD 0 2\nD 0 33\nD 0 99\nD 0 104\nD 0 164\nD 0 256\n\
            D 1 200\n\
        ",
        printed: "\
            configurations 1\n0 15\n\
            operations 1\n1 R 1 0 0 0 0 0\n\
            refusals 9\n2 5 hall\n4 5 hall\n5 5 hall\n6 5 hall\n7 5 hall\n8 5 hall\n9 5 hall\n10 5 hall\n\
            11 5 hall\n\
        ",
    },
    Case {
        name: "receivers of what a client asks and of what it is answered",
        script: "\
            S 1 4 2 15 0 0 412\nR 1\nD 0 100\n\
            D 0 0\nD 0 1\nD 0 2\n\
            D 1 0\nD 1 2\nD 1 100\nD 1 101\n\
            D 1 1\nW 2 5 412\nD 2 101\nD 3 1\nD 3 2\n\
        ",
        printed: "\
            configurations 1\n0 15\n\
            operations 2\n1 R 1 0 0 0 0 0\n2 W 2 0 0 0 5 412\n\
            refusals 8\n4 11 hall\n5 11 hall\n6 11 hall\n7 11 hall\n8 11 hall\n9 11 hall\n10 11 hall\n\
            14 11 hall\n\
        ",
    },
    Case {
        name: "receivers of configurations, of TRANSFER and of STOCK",
        script: "\
            S 1 5 2 15 0 0 412\nI 30\nD 0 0\n\
            D 0 101\nD 1 0\nD 1 1\nD 1 101\n\
            D 2 0\nD 2 1\nD 2 102\nD 2 101\n\
        ",
        printed: "\
            configurations 2\n0 15\n1 30\n\
            operations 0\n\
            refusals 6\n3 11 hall\n5 11 hall\n6 11 hall\n8 11 hall\n9 11 hall\n10 11 hall\n\
        ",
    },
    Case {
        name: "entries of a liar that no honest party could send",
        script: "\
            S 1 4 2 15 1 0 412\n\
            M 100 1 0 1 0 0 0 0 0\nD 0 101\nD 0 100\nD 0 1\n\
            M 100 2 0 1 0 0 0 100000000000412 0\nD 1 101\n\
            M 100 0 1 0 0 0 0 0 0\nD 2 1\nD 2 101\n\
            M 100 9 101 0 0 0 0 0 0\nD 3 101\nD 3 1\n\
            M 100 255 1 0 0 0 0 0 0\nD 4 1\n\
        ",
        printed: "\
            configurations 1\n0 15\n\
            operations 0\n\
            refusals 9\n3 11 hall\n4 11 hall\n5 11 hall\n7 11 hall\n9 11 hall\n10 11 hall\n12 11 hall\n\
            13 11 hall\n15 11 hall\n\
        ",
    },
    Case {
        name: "answers of a liar go to the one addressed",
        script: "\
            S 1 4 2 15 1 0 412\n\
            M 100 4 101 0 0 0 0 0 0\nD 0 101\nD 0 1\n\
            M 100 5 0 0 0 0 0 0 0\nD 1 0\nD 1 1\n\
            M 100 6 1 0 0 0 0 0 0\nD 2 1\nD 2 101\n\
            M 100 8 101 0 0 0 0 0 0\nD 3 102\nD 3 1\nD 3 101\nD 4 101\n\
            M 100 8 0 0 0 0 0 0 0\nD 5 0\n\
        ",
        printed: "\
            configurations 1\n0 15\n\
            operations 0\n\
            refusals 10\n3 11 hall\n4 11 hall\n6 11 hall\n7 11 hall\n9 11 hall\n10 11 hall\n12 11 hall\n\
            13 11 hall\n15 16 replica\n17 11 hall\n\
        ",
    },
    Case {
        name: "calling off and collecting where nothing is lodged",
        script: "\
            S 1 4 1 15 0 0 412\nO 1\nT 1\nO 0\nT 2\nO 33\nT 100\n\
            R 1\nT 1\nO 1\nO 1\nT 1\n\
        ",
        printed: "\
            configurations 1\n0 15\n\
            operations 1\n1 R 1 0 0 0 0 0\n\
            refusals 9\n2 18 client\n3 18 client\n4 18 client\n5 18 client\n6 18 client\n7 18 client\n\
            9 19 client\n11 18 client\n12 18 client\n\
        ",
    },
    Case {
        name: "a slip that is refused is lodged again",
        script: "\
            S 1 4 1 15 0 0 412\nR 1\nT 1\nT 1\n\
            D 0 100\nD 0 101\nD 0 102\nD 1 1\nD 2 1\nD 3 1\n\
            O 1\nO 1\nT 1\nT 1\nO 1\n\
        ",
        printed: "\
            configurations 1\n0 15\n\
            operations 1\n1 R 1 2 0 0 0 412\n\
            refusals 6\n3 19 client\n4 19 client\n11 19 client\n12 19 client\n14 18 client\n15 18 client\n\
        ",
    },
    Case {
        name: "meddling in another name than a marked replica's",
        script: "\
            S 1 4 2 15 1 0 412\n\
            M 0 1 0 0 0 0 0 0 0\nM 1 1 0 0 0 0 0 0 0\nM 101 1 0 0 0 0 0 0 0\n\
            M 3 1 0 0 0 0 0 0 0\nM 50 1 0 0 0 0 0 0 0\nM 104 1 0 0 0 0 0 0 0\nM 163 1 0 0 0 0 0 0 0\n\
            M 100 1 0 0 0 0 0 0 0\n\
        ",
        printed: "\
            configurations 1\n0 15\n\
            operations 0\n\
            refusals 7\n2 20 hall\n3 20 hall\n4 20 hall\n5 5 hall\n6 5 hall\n7 5 hall\n8 5 hall\n\
        ",
    },
    Case {
        name: "a replica outside the set can be marked and can meddle",
        script: "\
            S 1 5 1 15 17 0 412\n\
            M 104 4 1 1 0 0 0 100000000000412 0\nM 100 4 1 1 0 0 0 100000000000412 0\n\
            R 1\nD 0 1\nD 1 1\n\
        ",
        printed: "configurations 1\n0 15\noperations 1\n1 R 1 0 0 0 0 0\nrefusals 1\n5 13 client\n",
    },
];

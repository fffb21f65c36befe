// What opens a hall, and what is refused at its opening.
use crate::case::Case;

pub const CASES: [Case; 25] = [
    Case {
        name: "f of 0",
        script: "S 0 4 1 15 0 0 412\n",
        printed: "configurations 0\noperations 0\nrefusals 1\n1 1 hall\n",
    },
    Case {
        name: "f of 6",
        script: "S 6 19 1 524287 0 0 412\n",
        printed: "configurations 0\noperations 0\nrefusals 1\n1 1 hall\n",
    },
    Case {
        name: "fewer than 3f+1 replicas",
        script: "S 2 6 1 63 0 0 412\n",
        printed: "configurations 0\noperations 0\nrefusals 1\n1 1 hall\n",
    },
    Case {
        name: "65 replicas",
        script: "S 1 65 1 15 0 0 412\n",
        printed: "configurations 0\noperations 0\nrefusals 1\n1 1 hall\n",
    },
    Case {
        name: "no client",
        script: "S 1 4 0 15 0 0 412\n",
        printed: "configurations 0\noperations 0\nrefusals 1\n1 1 hall\n",
    },
    Case {
        name: "33 clients",
        script: "S 1 4 33 15 0 0 412\n",
        printed: "configurations 0\noperations 0\nrefusals 1\n1 1 hall\n",
    },
    Case {
        name: "f beyond all bounds",
        script: "S 18446744073709551615 4 1 15 0 0 412\n",
        printed: "configurations 0\noperations 0\nrefusals 1\n1 1 hall\n",
    },
    Case {
        name: "a first set of 3f",
        script: "S 1 4 1 7 0 0 412\n",
        printed: "configurations 0\noperations 0\nrefusals 1\n1 2 hall\n",
    },
    Case {
        name: "a first set of 3f+2",
        script: "S 1 5 1 31 0 0 412\n",
        printed: "configurations 0\noperations 0\nrefusals 1\n1 2 hall\n",
    },
    Case {
        name: "a first set with a replica that the hall lacks",
        script: "S 1 4 1 23 0 0 412\n",
        printed: "configurations 0\noperations 0\nrefusals 1\n1 2 hall\n",
    },
    Case {
        name: "two of the first set marked where f is 1",
        script: "S 1 4 1 15 3 0 412\n",
        printed: "configurations 0\noperations 0\nrefusals 1\n1 3 hall\n",
    },
    Case {
        name: "three of the first set marked where f is 2",
        script: "S 2 7 1 127 84 0 412\n",
        printed: "configurations 0\noperations 0\nrefusals 1\n1 3 hall\n",
    },
    Case {
        name: "a mark for a replica that the hall lacks",
        script: "S 1 4 1 15 16 0 412\n",
        printed: "configurations 0\noperations 0\nrefusals 1\n1 5 hall\n",
    },
    Case {
        name: "a mark for replica 63 of a hall of 63",
        script: "S 1 63 1 15 9223372036854775808 0 412\n",
        printed: "configurations 0\noperations 0\nrefusals 1\n1 5 hall\n",
    },
    Case {
        name: "an opening value of too many grams",
        script: "S 1 4 1 15 0 1000000001 412\n",
        printed: "configurations 0\noperations 0\nrefusals 1\n1 21 kind\n",
    },
    Case {
        name: "an opening value of too few grams",
        script: "S 1 4 1 15 0 -1000000001 412\n",
        printed: "configurations 0\noperations 0\nrefusals 1\n1 21 kind\n",
    },
    Case {
        name: "an opening value of a lot that there is not",
        script: "S 1 4 1 15 0 0 100000\n",
        printed: "configurations 0\noperations 0\nrefusals 1\n1 21 kind\n",
    },
    Case {
        name: "no value comes before a broken limit",
        script: "S 0 4 1 7 19 0 100000\n",
        printed: "configurations 0\noperations 0\nrefusals 1\n1 21 kind\n",
    },
    Case {
        name: "a broken limit comes before a wrong set",
        script: "S 1 4 0 7 19 0 412\n",
        printed: "configurations 0\noperations 0\nrefusals 1\n1 1 hall\n",
    },
    Case {
        name: "a wrong set comes before a wrong mark",
        script: "S 1 4 1 7 19 0 412\n",
        printed: "configurations 0\noperations 0\nrefusals 1\n1 2 hall\n",
    },
    Case {
        name: "a wrong mark comes before too many marks",
        script: "S 1 4 1 15 19 0 412\n",
        printed: "configurations 0\noperations 0\nrefusals 1\n1 5 hall\n",
    },
    Case {
        name: "marks outside the first set are not counted against f",
        script: "S 1 6 1 15 49 0 412\nR 1\n",
        printed: "configurations 1\n0 15\noperations 1\n1 R 1 0 0 0 0 0\nrefusals 0\n",
    },
    Case {
        name: "everything at its largest",
        script: "S 5 64 32 65535 31 1000000000 99999\nR 32\nR 33\n",
        printed: "configurations 1\n0 65535\noperations 1\n32 R 1 0 0 0 0 0\nrefusals 1\n3 5 hall\n",
    },
    Case {
        name: "a first set of the last replicas",
        script: "\
            S 1 64 1 17293822569102704640 0 -1000000000 0\nR 1\nD 0 163\nD 0 160\nD 0 162\n\
            D 0 100\nD 0 159\n\
            D 1 1\nD 2 1\nD 3 1\n\
        ",
        printed: "\
            configurations 1\n0 17293822569102704640\n\
            operations 1\n1 R 1 2 0 0 -1000000000 0\n\
            refusals 2\n6 13 replica\n7 13 replica\n\
        ",
    },
    Case {
        name: "f of 5 needs eleven answers",
        script: "\
            S 5 16 1 65535 0 7 8\nR 1\n\
            D 0 100\nD 0 101\nD 0 102\nD 0 103\nD 0 104\nD 0 105\nD 0 106\nD 0 107\nD 0 108\nD 0 109\n\
            D 0 110\n\
            D 1 1\nD 2 1\nD 3 1\nD 4 1\nD 5 1\nD 6 1\nD 7 1\nD 8 1\nD 9 1\nD 10 1\n\
            T 1\nD 11 1\nT 1\n\
        ",
        printed: "configurations 1\n0 65535\noperations 1\n1 R 1 2 0 0 7 8\nrefusals 1\n24 19 client\n",
    },
];

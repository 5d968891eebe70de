//! Plans with their traces, which another program made from the rules of the volume alone.

const WRITE_AND_READ: &str = "\
afr 1
volume replica
files 1
turns 100000
client 1
write /f1 0 \"hello\"
read /f1 0 5
end
";

/// Each brick carries out a write, and a read gives what was written.
const WRITE_AND_READ_TRACE: &str = "\
0 c1 b0 look g1 seen
1 c1 b1 look g1 seen
2 c1 b2 look g1 seen
3 c1 b0 name g1/f1 ok
4 c1 b0 lock f1[0,5) granted
5 c1 b1 lock f1[0,5) granted
6 c1 b2 lock f1[0,5) granted
7 c1 b0 look f1 seen
8 c1 b1 look f1 seen
9 c1 b2 look f1 seen
10 c1 begin write f1 0 5
11 c1 b0 pre f1 data done
12 c1 b1 pre f1 data done
13 c1 b2 pre f1 data done
14 c1 b0 apply 10 done
15 c1 b1 apply 10 done
16 c1 b2 apply 10 done
17 c1 b0 post 10 - done
18 c1 b1 post 10 - done
19 c1 b2 post 10 - done
20 c1 b0 unlock f1[0,5) done
21 c1 b1 unlock f1[0,5) done
22 c1 b2 unlock f1[0,5) done
23 c1 end ok
24 c1 b0 look g1 seen
25 c1 b1 look g1 seen
26 c1 b2 look g1 seen
27 c1 b0 name g1/f1 ok
28 c1 b0 look f1 seen
29 c1 b1 look f1 seen
30 c1 b2 look f1 seen
31 c1 b0 read f1[0,5) ok
32 c1 end ok 68656c6c6f
";

const LOST_ANSWER: &str = "\
afr 1
volume replica
files 1
turns 100000
client 1
write /f1 0 \"hello\"
healer 1
round 0
fault 2 5 lost
go c1 22
end
";

/// The answer of brick 2 to a write is lost, and its copy is healed.
const LOST_ANSWER_TRACE: &str = "\
0 c1 b0 look g1 seen
1 c1 b1 look g1 seen
2 c1 b2 look g1 seen
3 c1 b0 name g1/f1 ok
4 c1 b0 lock f1[0,5) granted
5 c1 b1 lock f1[0,5) granted
6 c1 b2 lock f1[0,5) granted
7 c1 b0 look f1 seen
8 c1 b1 look f1 seen
9 c1 b2 look f1 seen
10 c1 begin write f1 0 5
11 c1 b0 pre f1 data done
12 c1 b1 pre f1 data done
13 c1 b2 pre f1 data done
14 c1 b0 apply 10 done
15 c1 b1 apply 10 done
16 c1 b2 apply 10 lost
17 c1 b0 post 10 2 done
18 c1 b1 post 10 2 done
19 c1 b0 unlock f1[0,5) done
20 c1 b1 unlock f1[0,5) done
21 c1 end ok
22 h1 b0 index ok
23 h1 b0 lock heal f1[0,end) granted
24 h1 b1 lock heal f1[0,end) granted
25 h1 b2 lock heal f1[0,end) granted
26 h1 b0 lock f1[meta] granted
27 h1 b1 lock f1[meta] granted
28 h1 b2 lock f1[meta] granted
29 h1 begin heal metadata f1
30 h1 b0 look f1 seen
31 h1 b1 look f1 seen
32 h1 b2 look f1 seen
33 h1 b0 unlock f1[meta] done
34 h1 b1 unlock f1[meta] done
35 h1 b2 unlock f1[meta] done
36 h1 b0 unlock heal f1[0,end) done
37 h1 b1 unlock heal f1[0,end) done
38 h1 b2 unlock heal f1[0,end) done
39 h1 end metadata f1 nothing
40 h1 b0 lock heal f1[0,end) granted
41 h1 b1 lock heal f1[0,end) granted
42 h1 b2 lock heal f1[0,end) granted
43 h1 b0 lock f1[0,end) granted
44 h1 b1 lock f1[0,end) granted
45 h1 b2 lock f1[0,end) granted
46 h1 begin heal data f1
47 h1 b0 look f1 seen
48 h1 b1 look f1 seen
49 h1 b2 look f1 seen
50 h1 b1 pre f1 data done
51 h1 b2 pre f1 data done
52 h1 b1 cut f1 5 done
53 h1 b2 cut f1 5 done
54 h1 b0 unlock f1[0,end) done
55 h1 b1 unlock f1[0,end) done
56 h1 b2 unlock f1[0,end) done
57 h1 b0 lock f1[0,131072) granted
58 h1 b1 lock f1[0,131072) granted
59 h1 b2 lock f1[0,131072) granted
60 h1 begin heal data f1
61 h1 b0 look f1 seen
62 h1 b1 look f1 seen
63 h1 b2 look f1 seen
64 h1 b0 read f1[0,131072) ok
65 h1 b1 copy f1[0,131072) from 64 done
66 h1 b2 copy f1[0,131072) from 64 done
67 h1 b0 unlock f1[0,131072) done
68 h1 b1 unlock f1[0,131072) done
69 h1 b2 unlock f1[0,131072) done
70 h1 b0 lock f1[0,end) granted
71 h1 b1 lock f1[0,end) granted
72 h1 b2 lock f1[0,end) granted
73 h1 begin heal data f1
74 h1 b0 look f1 seen
75 h1 b1 look f1 seen
76 h1 b2 look f1 seen
77 h1 b0 settle f1 data 0 0 0 1 done
78 h1 b1 settle f1 data 1 0 0 1 done
79 h1 b2 settle f1 data 2 0 0 0 done
80 h1 b0 unlock f1[0,end) done
81 h1 b1 unlock f1[0,end) done
82 h1 b2 unlock f1[0,end) done
83 h1 b0 unlock heal f1[0,end) done
84 h1 b1 unlock heal f1[0,end) done
85 h1 b2 unlock heal f1[0,end) done
86 h1 end data f1 settled
87 h1 end ok
";

pub fn write_and_read() -> &'static str {
    WRITE_AND_READ
}

pub fn write_and_read_trace() -> &'static str {
    WRITE_AND_READ_TRACE
}

pub fn lost_answer() -> &'static str {
    LOST_ANSWER
}

pub fn lost_answer_trace() -> &'static str {
    LOST_ANSWER_TRACE
}

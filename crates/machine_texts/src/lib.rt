//! The texts of machines that tests of several crates run: programs alone, with no protocol, so that each test may choose one.
#![tactic(auto)]

/// One node, which stores a word and loads it.
pub const ALONE: &str = "tempest 1
nodes 1
words 1
blocks 1
program 0
li r1 5
st r1 r0 0
ld r2 r0 0
print r2
halt
end
";

/// Its report, whatever the schedule.
pub const ALONE_REPORT: &str = "tempest report 1 nodes 1 words 1 blocks 1 budget 4000
print 0 5
word 0 5
register 0 1 5
register 0 2 5
node 0 halted place 4 instructions 5 handlers 0
history agrees
end
";

/// Each of two nodes stores a word, and then loads the word that the other stores.
pub const BOTH: &str = "tempest 1
nodes 2
words 1
blocks 2
program 0
li r1 1
st r1 r0 0
ld r2 r0 1
print r2
halt
end
program 1
li r1 1
st r1 r0 1
ld r2 r0 0
print r2
halt
end
";

/// Seven nodes load a word of the eighth, which then stores it.
pub const SEVEN_READERS: &str = "tempest 1
nodes 8
words 1
blocks 8
init 7 4
program 0
ld r1 r0 7
halt
end
program 1
ld r1 r0 7
halt
end
program 2
ld r1 r0 7
halt
end
program 3
ld r1 r0 7
halt
end
program 4
ld r1 r0 7
halt
end
program 5
ld r1 r0 7
halt
end
program 6
ld r1 r0 7
halt
end
program 7
ld r2 r0 6
li r1 9
st r1 r0 7
halt
end
";

/// A node loads a word of another.
pub const READER: &str = "tempest 1
nodes 2
words 1
blocks 1
program 1
ld r1 r0 0
halt
end
";

/// The same, with a budget of two instructions.
pub const SHORT_READER: &str = "tempest 1
nodes 2
words 1
blocks 1
budget 2
program 1
ld r1 r0 0
halt
end
";

/// A node loads a word that its home stores.
pub const STORE_AND_PRINT: &str = "tempest 1
nodes 2
words 1
blocks 1
program 0
li r1 9
st r1 r0 0
halt
end
program 1
ld r2 r0 0
print r2
halt
end
";

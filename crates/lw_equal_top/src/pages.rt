// The pages that a run may be asked for.

/// What `-v` prints.
pub const VERSION: &[u8] = b"lwequal 0.3.0\n";

/// What `-h` prints.
pub const HELP: &[u8] = b"lwequal compares two networks and proves that they are equal.

usage: lwequal [-l LIB] [-n CONFLICTS] [-s] IN1 IN2 [MORE ..]
       lwequal -h | -v

IN1 and IN2 are networks in BLIF. Inputs, outputs and latches are matched by
name. A latch's output counts as an input, and what a latch reads as an output.

  MORE          further networks, such as the steps of an optimizer between IN1
                and IN2; they may help, and nothing is assumed of them
  -l LIB        a library in genlib: a file with .gate lines is a netlist of it
  -n CONFLICTS  the most conflicts of a search for a pair of nets (1000)
  -s            print on standard error how many nets were found and proved
  -h, -v        print this help, or the version

status  output                 meaning
     0  equal                  the same values under every assignment
     1  differ OUTPUT          and a line for each input of an assignment under
                               which the networks differ
     2  undecided OUTPUT ..    a larger CONFLICTS, or MORE, may decide
other statuses: 3 fault of a network, 4 of LIB, 5 file too long, 7 output not
written, 8 out of memory, 9 ports differ, 10 fault of a mapped netlist, 11 wrong
words, 12 file not read. One line on standard error names the cause.
";

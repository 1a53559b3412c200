//! What the program says about itself.

/// The modes, their words and the exit statuses, on one screen.
pub const HELP: &str = "\
pm_trace: disks, a Serial ATA port multiplier and an AHCI host port, in text

pm_trace run [WORDS] [FILE]            play a scenario, one step at a time
    --trace          a line for each step that moved something
    --only port=N    only steps of this port, 15 for the control port of the multiplier
    --only faults    only faults, drops, removals and requests that failed
    --from N         only steps from number N on
    --json           the same as JSON, an object a line
    --bytes          the same with the bytes of each FIS
    --strict         a step or a request that is refused ends the run
pm_trace threads [--turns N] [FILE]    run one with a thread for each disk, the multiplier and the host
    --turns N        end once nothing moved in N turns of a thread, 1 to 16777216
pm_trace guest [WORDS] [FILE]          play the accesses of a driver to an AHCI controller
    --trace          a line for each access, decision of the controller, warning, and FIS on the link
    --json           the same as JSON, an object a line
pm_trace decode [FILE]                 say what frames in hexadecimal mean, one a line
pm_trace --help                        this; so does no word at all

Without FILE the input is standard input. Standard error says which word is refused, and what was wanted.

exit status
  0  done
  1  a line of the input is refused: standard output ends with `line L: WORD`
  2  the command line is refused
  3  no memory
  4  the input or a disk's file cannot be read, or standard output or that file not be written
  5  the turns of the threads are spent
  6  a line `expect` of the input is not met
";

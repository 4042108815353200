// The replay program: a table, then event lines, from standard input; one answer line per event to standard output.
#![tactic(auto)]

fn main(rt: HostRuntime) {
    standard_io::replay(rt, true);
}

// The merge program: operation, A and B from standard input. It prints the merged solid, or one 0F line, and nothing else.
#![tactic(auto)]

fn main() {
    prints::run_input(|text, out, work| zones::merge_text(text, out, work));
}

// The normal program: a solid from standard input. It prints the solid's normal form, or one 0F line, and nothing else.
#![tactic(auto)]

fn main() {
    prints::run_input(|text, out, work| zones::normal_text(text, out, work));
}

// Runs merges. Standard input holds cases one after the other; a case has two parts:
//     head    four capital hexadecimal digits and LF: how many bytes the text has
//     text    that many bytes, whichever they are
// It prints for each case what the merge of the text answers, the merged solid or one 0F line, and then --. A head or a text that is cut
// short ends the run.
#![tactic(auto)]

// Case after case, at most 65,536.
fn main() {
    let mut text = io::large_buffer();
    for _ in 0..65536usize {
        let Some(n) = prints::next_text(&mut text) else {
            return;
        };
        prints::run(
            |text, out, work| zones::merge_text(text, out, work),
            &text[0..n],
        );
        prints::say(b"--\n");
    }
}

// Resolved answers, on one line.
use cli_numbers::number;
use cli_page::Out;
use float::{Srt, Vector2, Vector3};
use menu_readings::ResolvedPane;

// `words` stand in front of the first number, and a space in front of the others.
fn say_two(out: &mut Out, words: &str, names: [&str; 2], v: Vector2) {
    number(out, words, names[0], v.x);
    number(out, " ", names[1], v.y);
}

fn say_three(out: &mut Out, words: &str, names: [&str; 3], v: Vector3) {
    number(out, words, names[0], v.x);
    number(out, " ", names[1], v.y);
    number(out, " ", names[2], v.z);
}

pub fn say_pane(out: &mut Out, r: ResolvedPane) {
    let t = r.transform;
    cli_facts::say_shown(out, " ", r.visible);
    number(out, " alpha ", "alpha", r.alpha);
    let translation = ["translate_x", "translate_y", "translate_z"];
    say_three(out, " translation ", translation, t.translation);
    let rotation = ["rotate_x", "rotate_y", "rotate_z"];
    say_three(out, " rotation ", rotation, t.rotation);
    say_two(out, " scale ", ["scale_x", "scale_y"], t.scale);
    say_two(out, " size ", ["size_x", "size_y"], t.size);
}

pub fn say_srt(out: &mut Out, t: Srt) {
    let translate = ["translate_u", "translate_v"];
    say_two(out, " translate ", translate, t.translate);
    number(out, " rotate ", "rotate", t.rotate);
    say_two(out, " scale ", ["scale_u", "scale_v"], t.scale);
}

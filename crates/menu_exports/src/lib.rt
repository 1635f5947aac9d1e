// The exports for C and Rust: each hands its arguments on to `menu_c`, with its clauses, and gives the answer on. A slice goes as a pointer and a length, the
// player by value. No export asks anything of its caller but that a pointer has as many elements as its length says.
#![tactic(auto)]

mod counts;
mod dragging;
mod editing;
mod naming;
mod playing;
mod reaching;
mod readings;
mod shapes;

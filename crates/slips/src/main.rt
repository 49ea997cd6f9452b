// What the paper works by hand and does not mark P, run: the rows of Table 3, the edges of years, letters and scores, and the slips
// that the office has met, each by a call whose answer would be another if the slip were made.
#![tactic(auto)]

mod edges;
mod pupils;
mod saying;
mod slips;
mod table3;

fn main(rt: HostRuntime) {
    let out = rt.stdout();
    table3::run(out);
    edges::run(out);
    slips::run(out);
}

// The search for the best set: those of five kept results, no two of which clash, are tried in dictionary order of their positions, up to three members
// by stepping, the fourth and the fifth by loops; a set is left as soon as a result clashes with a member.
ghost use Rattle.paper.specs.Limits.{most_results};
ghost use Rattle.seek.specs.InnerTest.{value_at, Counted, Allowed, MayJoin, Decides, Beats, Answers};
ghost use Rattle.seek.specs.InnerSearch.{Sought, key, Tried, StandsWith, Follows, Bettered};

use paper::limits::{LEAST_GENERAL, MEMBERS, MOST_RESULTS};

// The members of a set, as a number of positions; by `as`, since std has no `usize::from` of a `u32`.
const MEMBER_COUNT: usize = MEMBERS as usize;

// Those that the search steps to; the last two are tried in loops.
const STEPPED: usize = MEMBER_COUNT - 2;

// The kept results, and those that are General: bit i for result i.
#[derive(Clone, Copy)]
pub struct Test {
    pub kept: u16,
    pub general: u16,
}

// The best set so far, with its sum.
#[derive(Clone, Copy)]
pub struct Lead {
    pub total: u32,
    pub set: u16,
}

// What is sought in: `clashes` and `scores` are by position, `clashes` with bit j for each result j before that may not stand in one set with it (what it
// has of results after is not looked at); `held` is the number of results.
#[derive(Clone, Copy)]
pub struct Search<'a> {
    pub test: Test,
    pub clashes: &'a [u16; MOST_RESULTS],
    pub scores: &'a [u32; MOST_RESULTS],
    pub held: usize,
}

// Whether a set has five members, at least four of them General.
fn counted(general: u16, set: u16) -> bool
    ensures { Decides result (Counted general set) }
{
    // The search tries fives alone; that is tested all the same, so that both counts stand here.
    set.count_ones() == MEMBERS && LEAST_GENERAL <= (set & general).count_ones()
}

// Whether a sum is more than the best so far.
fn beats(best: Option<Lead>, sum: u32) -> bool
    ensures { Decides result (Beats best sum) }
{
    best.is_none_or(|lead| lead.total < sum)
}

impl Search<'_> {
    // Whether result i may join a set of results before it: it is kept, and clashes with no member.
    fn may_join(&self, set: u16, i: usize) -> bool
        requires { Follows set i }
        ensures { MayJoin self.now.test (value_at self.now.clashes.now) set i result }
    {
        if self.test.kept & (1u16 << i) == 0 {
            return false;
        }
        set & self.clashes[i] == 0
    }

    // The best with the set that goes on from a set of four by result i, and comes to this sum.
    fn better(&self, best: Option<Lead>, set: u16, i: usize, sum: u32) -> Option<Lead>
        requires { Follows set i }
        ensures { Bettered self.now.test (value_at self.now.clashes.now) best set i sum result }
    {
        // The sum first: it is the cheaper test, and few sets come to more than the best.
        if !beats(best, sum) || !self.may_join(set, i) {
            return best;
        }
        let whole = set | (1u16 << i);
        if !counted(self.test.general, whole) {
            return best;
        }
        Some(Lead {
            total: sum,
            set: whole,
        })
    }

    // The best with every set that goes on from a set of four by a result from `at` on.
    fn with_fifth(&self, best: Option<Lead>, set: u16, sum: u32, at: usize) -> Option<Lead>
        requires { StandsWith 4 self.now.test (value_at self.now.clashes.now) self.now.scores.now self.now.held best at set sum }
        ensures { Tried (Allowed self.now.test (value_at self.now.clashes.now)) (value_at self.now.scores.now) (key most_results set) result }
    {
        let mut best = best;
        for i in at..self.held {
            best = self.better(best, set, i, sum + self.scores[i]);
        }
        best
    }

    // The best with every set that goes on from a set of three by two results from `at` on.
    fn with_fourth(&self, best: Option<Lead>, set: u16, sum: u32, at: usize) -> Option<Lead>
        requires { StandsWith 3 self.now.test (value_at self.now.clashes.now) self.now.scores.now self.now.held best at set sum }
        ensures { Tried (Allowed self.now.test (value_at self.now.clashes.now)) (value_at self.now.scores.now) (key most_results set) result }
    {
        let mut best = best;
        // By the place of the fifth: where there is none for it the loop has ended, so that the fifth's loop need not test that again.
        for next in at + 1..self.held {
            let i = next - 1;
            if self.may_join(set, i) {
                best = self.with_fifth(best, set | (1u16 << i), sum + self.scores[i], next);
            }
        }
        best
    }

    // The best of the allowed sets, the first of those that tie.
    pub fn search(&self) -> Option<Lead>
        requires { Sought self.now.test.kept self.now.scores.now self.now.held }
        ensures { Answers (Allowed self.now.test (value_at self.now.clashes.now)) (value_at self.now.scores.now) result }
    {
        let mut best = None;
        let mut set: u16 = 0;
        let mut sum: u32 = 0;
        let mut at: usize = 0;
        // A loop, since it steps forward and back: a `for` goes one way.
        'sets: loop {
            // by `as`, as above
            let members = set.count_ones() as usize;
            if members < STEPPED && at + MEMBER_COUNT <= self.held + members {
                // members and results left can come to five: result `at` joins, if it may
                if self.may_join(set, at) {
                    set |= 1u16 << at;
                    sum += self.scores[at];
                }
                at += 1;
            } else {
                if members == STEPPED {
                    best = self.with_fourth(best, set, sum, at);
                }
                // the last member leaves, and the results after it are open again
                'back: loop {
                    if at == 0 {
                        break 'sets;
                    }
                    at -= 1;
                    if set & (1u16 << at) != 0 {
                        set ^= 1u16 << at;
                        sum -= self.scores[at];
                        at += 1;
                        break 'back;
                    }
                }
            }
        }
        best
    }
}

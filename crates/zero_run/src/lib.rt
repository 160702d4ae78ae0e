// The run of zero groups in an IPv6 address that "::" takes the place of (RFC 5952, section 4.2). No public function has a `requires`.
#![tactic(auto)]

ghost use Rattle.std.specs.Prelude.{◌≡◌, ◌+◌, ◌<◌, ◌≤◌, IfSome};
ghost use Rattle.zero_run.specs.ZeroRun.{zeros_with, longest_run, some_run};

// A run of zero groups: how many groups stand before it, and how many it has.
#[derive(Clone, Copy)]
pub struct Run {
    pub before: usize,
    pub count: usize,
}

// How many zeros there are from a group on, if behind it there are so many.
fn zeros_from(group: u16, behind: usize) -> usize
    requires { behind < 8 }
    ensures { result ≡ zeros_with group behind }
{
    if group == 0 { behind + 1 } else { 0 }
}

// The longest run of zeros, the first of equals. The groups are gone through from the last to the first, so that of equals the first is kept.
// (Groups by value: a rule of the project, docs/DECISIONS.md.)
pub fn longest_run(groups: [u16; 8]) -> Option<Run>
    ensures longest { result ≡ some_run (longest_run groups) }
    ensures inside { IfSome result (λ run. run.before + run.count ≤ 8) }
{
    let mut run = Run {
        before: 8,
        count: 0,
    };
    let mut zeros = 0;
    for i in (0..8).rev() {
        zeros = zeros_from(groups[i], zeros);
        if run.count <= zeros {
            run = Run {
                before: i,
                count: zeros,
            };
        }
    }
    if run.count == 0 { None } else { Some(run) }
}

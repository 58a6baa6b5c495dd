// What may stand behind a line.
ghost use Rattle.std.specs.Prelude.{◌≡◌, ◌+◌, ◌<◌, ◌^◌};
ghost use Rattle.text.specs.Grammar.{further, deeper, shallower};
ghost use Rattle.script.specs.Stages.{held, stage_after};

use crate::Found;
use text::Stage;

fn further(stage: Stage) -> Stage
    requires { held stage + 1 < 2 ^ 64 }
    ensures { result ≡ further stage }
{
    match stage {
        Stage::Start => stage,
        Stage::Listing { next } => Stage::Listing { next: next + 1 },
        Stage::Timed => stage,
        Stage::Playing { .. } => stage,
    }
}

fn deeper(stage: Stage) -> Stage
    requires { held stage + 1 < 2 ^ 64 }
    ensures { result ≡ deeper stage }
{
    match stage {
        Stage::Start => stage,
        Stage::Listing { .. } => stage,
        Stage::Timed => stage,
        Stage::Playing { depth } => Stage::Playing { depth: depth + 1 },
    }
}

fn shallower(stage: Stage) -> Stage
    ensures { result ≡ shallower stage }
{
    match stage {
        Stage::Start => stage,
        Stage::Listing { .. } => stage,
        Stage::Timed => stage,
        Stage::Playing { depth } => {
            if depth < 1 {
                return Stage::Playing { depth };
            }
            Stage::Playing { depth: depth - 1 }
        }
    }
}

// What may stand behind this line.
#[tactic(auto, unfolding(crate::specs::Stages::stage_after, crate::specs::Steps::line_of, crate::specs::Stages::after_read, text::specs::Grammar::after))]
pub fn after(found: Found, stage: Stage) -> Stage
    requires { held stage + 1 < 2 ^ 64 }
    ensures { result ≡ stage_after found stage }
{
    match found {
        Found::Heading => Stage::Listing { next: 0 },
        Found::Message { .. } => further(stage),
        Found::Event { .. } => Stage::Timed,
        Found::Part { .. } => Stage::Playing { depth: 0 },
        Found::Send { .. } => stage,
        Found::Group { .. } => deeper(stage),
        Found::Close => shallower(stage),
    }
}

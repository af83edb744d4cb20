// Tags, dates, counts up to a most.
ghost use Rattle.std.specs.Prelude.{◌≡◌, ◌&&◌, ◌||◌, leb, if◌then◌else◌};
ghost use Rattle.model.specs.Effects.{next_tag, date};

use model::numbers::SECONDS_OF_DAY;

// The tag that follows: after the largest comes 0.
#[tactic(auto, unfolding(model::specs::Effects::next_tag))]
pub fn next_tag(tag: u32) -> u32
    ensures { result ≡ next_tag tag }
{
    tag.wrapping_add(1)
}

#[tactic(auto, unfolding(model::specs::Effects::date))]
pub fn date_of(time: u32) -> u32
    ensures { result ≡ date time }
{
    time / SECONDS_OF_DAY
}

// The failures, or wrong tries, that are kept: those with this one are kept only below the most, where they have one byte.
// Flags choose among values that are ready: closures would say no less.
pub fn count_kept(granted: bool, failing: bool, most: u8, with: u16, before: u8) -> u8
    ensures { result ≡ if granted || failing && leb most with then 0 else if failing then with else before }
{
    if granted | (failing & (u16::from(most) <= with)) {
        0
    } else if failing {
        // Below the most it is a byte.
        with as u8
    } else {
        before
    }
}

// All entries of a journal, in turn.
ghost use Rattle.std.specs.Prelude.{◌≡◌, ◌*◌, ◌/◌, length};
ghost use mathlib.Core.List.{map, flatten};
ghost use Rattle.model.specs.State.{panel, state_length, state_of};
ghost use Rattle.model.specs.Entry.{entry_of, entries, answer_bytes};
ghost use Rattle.model.specs.Step as m;

use super::step::step;
use entries::reader::Entries;
use index::IndexedSite;
use records::entry::answer_bytes;

pub fn run(site: &IndexedSite, state: &mut [u8], journal: &[u8], answers: &mut [u8])
    requires state_len { length state.old ≡ state_length site.now }
    requires answers_len { length answers.old ≡ length journal.now / 24 * 16 }
    ensures state_after { state.new ≡ state_of (m.after (panel site.now state.old) (map entry_of (entries journal.now))) }
    ensures answers_after { answers.new ≡ flatten (map answer_bytes (m.answers (panel site.now state.old) (map entry_of (entries journal.now)))) }
{
    // By number, as `put_group` says; and an answer is known only after its entry's step.
    for (k, e) in Entries::of(journal).enumerate() {
        let answer = step(site, state, e);
        octets::put_group(answers, k, &answer_bytes(answer));
    }
}

// The calls for C, each with the number of its outcome, and the lookups, with that of a place. A slice passes as a pointer and a length.
#![tactic(auto)]

ghost use Rattle.std.specs.Prelude.{◌≡◌};
ghost use Rattle.model.specs.Numbers.{access_zone, access_point, access_credential};
ghost use Rattle.model.specs.Calls.{number, check_site, fresh_state, check_state, run_journal};
ghost use Rattle.model.specs.State.{state_length};
ghost use Rattle.model.specs.Longer.{shorten_state, lengthen_state};
ghost use Rattle.site.specs.Place.{place_of};
ghost use Rattle.wiegand.specs.Wiegand.{read_wiegand26, write_wiegand26};
ghost use Rattle.warblehay.specs.Numbered.{numbered_state, numbered_run, numbered_reading};
ghost use Rattle.warblehay.specs.PlaceNumber.{place_numbers};

use model::numbers::RECORD_SIZE;
use model::{CredentialId, PointId, ZoneId};
use site::lookup::place_of;
use site::object::Object;

// The place of a record that is not there.
pub const NOWHERE: usize = 18446744073709551615;

#[unsafe(no_mangle)]
pub extern "C" fn warblehay_check_site(site: &[u8]) -> u32
    ensures { result ≡ number (check_site site.now) }
{
    calls::number_of(view::check_site(site))
}

#[unsafe(no_mangle)]
pub extern "C" fn warblehay_fresh_state(site: &[u8], state: &mut [u8]) -> u32
    ensures { (result, state.new) ≡ numbered_state (fresh_state site.now state.old) }
{
    calls::number_of(view::fresh_state(site, state))
}

#[unsafe(no_mangle)]
pub extern "C" fn warblehay_check_state(site: &[u8], state: &[u8]) -> u32
    ensures { result ≡ number (check_state site.now state.now) }
{
    calls::number_of(view::check_state(site, state))
}

#[unsafe(no_mangle)]
pub extern "C" fn warblehay_run_journal(
    site: &[u8],
    state: &mut [u8],
    journal: &[u8],
    answers: &mut [u8],
) -> u32
    ensures { (result, state.new, answers.new) ≡ numbered_run (run_journal site.now state.old journal.now answers.old) }
{
    calls::number_of(view::run_journal(site, state, journal, answers))
}

// The place of the first record of an object, and the offset of its state record, which is handed out by the lent word. C has no Option, so that a number
// stands for no place.
#[tactic(auto, using(crate::proofs::Places::state_fits))]
fn place_number<O: Object>(site: &[u8], object: O, state_offset: &mut usize) -> usize
    ensures { (result, state_offset.new) ≡ place_numbers (place_of O.KIND (O.instance object) site.now) }
{
    let Some(place) = place_of(site, object) else {
        *state_offset = NOWHERE;
        return NOWHERE;
    };
    *state_offset = place.state * RECORD_SIZE;
    place.site
}

// How long the state of a site is, on any bytes.
#[unsafe(no_mangle)]
pub extern "C" fn warblehay_state_length(site: &[u8]) -> usize
    ensures { result ≡ state_length site.now }
{
    view::state_length(site)
}

// From the longer state of before to the shorter one, and back.
#[unsafe(no_mangle)]
pub extern "C" fn warblehay_shorten_state(site: &[u8], longer: &[u8], state: &mut [u8]) -> u32
    ensures { (result, state.new) ≡ numbered_state (shorten_state site.now longer.now state.old) }
{
    calls::number_of(view::shorten_state(site, longer, state))
}

#[unsafe(no_mangle)]
pub extern "C" fn warblehay_lengthen_state(site: &[u8], state: &[u8], longer: &mut [u8]) -> u32
    ensures { (result, longer.new) ≡ numbered_state (lengthen_state site.now state.now longer.old) }
{
    calls::number_of(view::lengthen_state(site, state, longer))
}

// The lookups, on any bytes: the place of the first record of a kind and an instance, 0 for the first of the site, and the offset of its state record in the
// state. Three, since C has no generics.
#[unsafe(no_mangle)]
pub extern "C" fn warblehay_place_of_zone(site: &[u8], zone: u32, state_offset: &mut usize) -> usize
    ensures { (result, state_offset.new) ≡ place_numbers (place_of access_zone zone site.now) }
{
    place_number(site, ZoneId(zone), state_offset)
}

#[unsafe(no_mangle)]
pub extern "C" fn warblehay_place_of_point(
    site: &[u8],
    point: u32,
    state_offset: &mut usize,
) -> usize
    ensures { (result, state_offset.new) ≡ place_numbers (place_of access_point point site.now) }
{
    place_number(site, PointId(point), state_offset)
}

#[unsafe(no_mangle)]
pub extern "C" fn warblehay_place_of_credential(
    site: &[u8],
    credential: u32,
    state_offset: &mut usize,
) -> usize
    ensures { (result, state_offset.new) ≡ place_numbers (place_of access_credential credential site.now) }
{
    place_number(site, CredentialId(credential), state_offset)
}

// Raw 26-bit readers: the factor of the bits, or format and value as they were where nothing is made.
#[unsafe(no_mangle)]
pub extern "C" fn warblehay_read_wiegand26(
    number: u64,
    count: u32,
    format: &mut u8,
    value: &mut [u8; 8],
) -> u32
    ensures { (result, format.new, value.new) ≡ numbered_reading (read_wiegand26 number count) format.old value.old }
{
    let reading = wiegand::read::read_wiegand26(number, count);
    if let Ok(made) = reading {
        *format = made.format;
        // By a variable, as the borrow checker asks of a field that is an array.
        let octets = made.value;
        *value = octets;
    }
    wiegand::read::number_of(reading)
}

// The way back.
#[unsafe(no_mangle)]
pub extern "C" fn warblehay_write_wiegand26(facility: u8, card: u16) -> u32
    ensures { result ≡ write_wiegand26 facility card }
{
    wiegand::write::write_wiegand26(facility, card)
}

// The fields of state records: read, fresh, and written. A writer is lent the record's own 32 bytes, and writes all of them.
#![tactic(auto, unfolding(model::specs::State::point_state_of, model::specs::State::credential_state_of, model::specs::State::fresh_point, model::specs::State::fresh_with))]

ghost use Rattle.std.specs.Prelude.{◌≡◌, length};
ghost use Rattle.model.specs.Words.{zeros};
ghost use Rattle.model.specs.State as State;
ghost use Rattle.model.specs.State.{zone_bytes, point_state_of, point_bytes, credential_state_of, credential_bytes, fresh_point, fresh_with};

use super::{FromPart, Part, ToRecord};
use model::numbers::{NEVER, RECORD_SIZE};
use model::{CredentialId, CredentialState, PointId, PointState, ZoneId, layout};
use octets::Number;

// A zone's count.
pub fn count_of<P: Part>(part: P) -> u32
    ensures { result ≡ State.count (P.bytes part) }
{
    part.number_at(layout::ZONE_STATE_COUNT)
}

pub fn tag_of<P: Part>(part: P) -> u32
    ensures { result ≡ (point_state_of (P.bytes part)).tag }
{
    part.number_at(layout::POINT_STATE_TAG)
}

// The byte that says whether a point is locked.
pub fn locked_byte_of<P: Part>(part: P) -> u8
    ensures { result ≡ State.locked_byte (P.bytes part) }
{
    part.number_at(layout::POINT_STATE_LOCKED)
}

impl FromPart for PointState {
    ghost of_part = { point_state_of };

    fn from_part<P: Part>(part: P) -> PointState {
        PointState {
            tag: tag_of(part),
            failures: part.number_at(layout::POINT_STATE_FAILURES),
            locked: locked_byte_of(part) == 1,
            lock_time: part.number_at(layout::POINT_STATE_LOCK_TIME),
            first_failure: part.number_at(layout::POINT_STATE_FIRST_FAILURE),
            waiting_credential: CredentialId(part.reference_at(
                layout::POINT_STATE_WAITING_CREDENTIAL,
            )),
            waiting_since: part.number_at(layout::POINT_STATE_WAITING_SINCE),
        }
    }
}

// The fields of a credential's state that have a range, each by itself: the reader of the whole is not inlined where every record is checked.
pub fn credential_disable_of<P: Part>(part: P) -> u8
    ensures { result ≡ (credential_state_of (P.bytes part)).disable }
{
    part.number_at(layout::CREDENTIAL_STATE_DISABLE)
}

pub fn credential_zone_of<P: Part>(part: P) -> ZoneId
    ensures { result ≡ (credential_state_of (P.bytes part)).zone }
{
    ZoneId(part.reference_at(layout::CREDENTIAL_STATE_ZONE))
}

pub fn wrong_tries_of<P: Part>(part: P) -> u8
    ensures { result ≡ (credential_state_of (P.bytes part)).wrong_tries }
{
    part.number_at(layout::CREDENTIAL_STATE_WRONG_TRIES)
}

pub fn last_point_of<P: Part>(part: P) -> PointId
    ensures { result ≡ (credential_state_of (P.bytes part)).last_point }
{
    PointId(part.reference_at(layout::CREDENTIAL_STATE_LAST_POINT))
}

impl FromPart for CredentialState {
    ghost of_part = { credential_state_of };

    fn from_part<P: Part>(part: P) -> CredentialState {
        CredentialState {
            uses: part.number_at(layout::CREDENTIAL_STATE_USES),
            days: part.number_at(layout::CREDENTIAL_STATE_DAYS),
            last_use: part.number_at(layout::CREDENTIAL_STATE_LAST_USE),
            zone: credential_zone_of(part),
            entered: part.number_at(layout::CREDENTIAL_STATE_ENTERED),
            last_event: part.number_at(layout::CREDENTIAL_STATE_LAST_EVENT),
            disable: credential_disable_of(part),
            wrong_tries: wrong_tries_of(part),
            last_point: last_point_of(part),
            last_grant: part.number_at(layout::CREDENTIAL_STATE_LAST_GRANT),
        }
    }
}

// ── fresh

pub fn fresh_point() -> PointState
    ensures { result ≡ fresh_point }
{
    PointState {
        tag: 0,
        failures: 0,
        locked: false,
        lock_time: 0,
        first_failure: 0,
        waiting_credential: CredentialId::NONE,
        waiting_since: 0,
    }
}

// A credential that has not been used or granted.
pub fn fresh_credential(uses: u16, days: u16, disable: u8) -> CredentialState
    ensures { result ≡ fresh_with uses days disable }
{
    CredentialState {
        uses: uses,
        days: days,
        last_use: NEVER,
        zone: ZoneId::NONE,
        entered: NEVER,
        last_event: 0,
        disable: disable,
        wrong_tries: 0,
        last_point: PointId::NONE,
        last_grant: NEVER,
    }
}

// ── written

// What no field fills.
pub fn write_zeros(part: &mut [u8])
    requires { length part.old ≡ 32 }
    ensures { part.new ≡ zeros 32 }
{
    part.copy_from_slice(&[0; RECORD_SIZE]);
}

// A zone's count.
impl ToRecord for u32 {
    ghost record_of = { zone_bytes };

    #[tactic(auto, unfolding(octets::specs::Octets::put, octets::specs::Octets::digits, model::specs::State::zone_bytes))]
    fn write_record(self, bytes: &mut [u8]) {
        write_zeros(bytes);
        self.put(bytes, layout::ZONE_STATE_COUNT);
    }
}

impl ToRecord for PointState {
    ghost record_of = { point_bytes };

    #[tactic(auto, unfolding(octets::specs::Octets::put, octets::specs::Octets::digits, model::specs::State::point_bytes))]
    fn write_record(self, bytes: &mut [u8]) {
        write_zeros(bytes);
        self.tag.put(bytes, layout::POINT_STATE_TAG);
        self.failures.put(bytes, layout::POINT_STATE_FAILURES);
        u8::from(self.locked).put(bytes, layout::POINT_STATE_LOCKED);
        self.lock_time.put(bytes, layout::POINT_STATE_LOCK_TIME);
        self.first_failure
            .put(bytes, layout::POINT_STATE_FIRST_FAILURE);
        self.waiting_credential
            .0
            .put(bytes, layout::POINT_STATE_WAITING_CREDENTIAL);
        self.waiting_since
            .put(bytes, layout::POINT_STATE_WAITING_SINCE);
    }
}

impl ToRecord for CredentialState {
    ghost record_of = { credential_bytes };

    #[tactic(auto, unfolding(octets::specs::Octets::put, octets::specs::Octets::digits, model::specs::State::credential_bytes))]
    fn write_record(self, bytes: &mut [u8]) {
        write_zeros(bytes);
        self.uses.put(bytes, layout::CREDENTIAL_STATE_USES);
        self.days.put(bytes, layout::CREDENTIAL_STATE_DAYS);
        self.last_use.put(bytes, layout::CREDENTIAL_STATE_LAST_USE);
        self.zone.0.put(bytes, layout::CREDENTIAL_STATE_ZONE);
        self.entered.put(bytes, layout::CREDENTIAL_STATE_ENTERED);
        self.last_event
            .put(bytes, layout::CREDENTIAL_STATE_LAST_EVENT);
        self.disable.put(bytes, layout::CREDENTIAL_STATE_DISABLE);
        self.wrong_tries
            .put(bytes, layout::CREDENTIAL_STATE_WRONG_TRIES);
        self.last_point
            .0
            .put(bytes, layout::CREDENTIAL_STATE_LAST_POINT);
        self.last_grant
            .put(bytes, layout::CREDENTIAL_STATE_LAST_GRANT);
    }
}

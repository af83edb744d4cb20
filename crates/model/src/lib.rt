// The values of document 01 as structs and enums: what the definitions in specs/ speak of and what the engine passes by value.
// A struct for each kind of record holds the fields that decisions read; rules and factors are read in place, out of their records.
#![tactic(auto)]

pub mod numbers; // numbers.rt: the numbers of document 01 by name
pub mod layout; // layout.rt: where the fields of records, entries and answers stand

use numbers::NONE;

// Instances are numbered per object type, so that zone 7 is never credential 7: a number of each type is a type of its own, with its NONE. One type by kind
// would name the kind at each use and be no plainer.
#[derive(Clone, Copy, PartialEq, Eq)]
pub struct ZoneId(pub u32);

impl ZoneId {
    pub const NONE: ZoneId = ZoneId(NONE);
}

#[derive(Clone, Copy, PartialEq, Eq)]
pub struct PointId(pub u32);

impl PointId {
    pub const NONE: PointId = PointId(NONE);
}

#[derive(Clone, Copy, PartialEq, Eq)]
pub struct CredentialId(pub u32);

impl CredentialId {
    pub const NONE: CredentialId = CredentialId(NONE);
}

#[derive(Clone, Copy, PartialEq, Eq)]
pub struct RightsId(pub u32);

impl RightsId {
    pub const NONE: RightsId = RightsId(NONE);
}

// The kinds of site records. A match names each, so that a new one is refused until every match has it; so with operations.
#[derive(Clone, Copy)]
pub enum RecordKind {
    OfZone,
    OfPoint,
    OfRule,
    OfCredential,
    OfFactor,
}

// The fields of a zone's site record. A flag, here and below, is true or false in its own right.
#[derive(Clone, Copy)]
pub struct Zone {
    pub counting: bool,
    pub passback: u8,
    pub upper_limit: u32,
    pub lower_limit: u32,
    pub passback_timeout: u32,
}

// The fields of a point's site record.
#[derive(Clone, Copy)]
pub struct Point {
    pub out_of_service: bool,
    pub upper_enforced: bool,
    pub lower_enforced: bool,
    pub count_adjust: bool,
    pub muster: bool,
    pub mode: u8,
    pub factors_wanted: u8,
    pub zone_to: ZoneId,
    pub zone_from: ZoneId,
    pub threat_level: u8,
    pub most_failures: u8,
    pub factor_timeout: u16,
    pub lockout_relinquish: u32,
    pub failure_window: u32,
}

// The fields of a credential's site record.
#[derive(Clone, Copy)]
pub struct Credential {
    pub master: bool,
    pub passback_exempt: bool,
    pub occupancy_exempt: bool,
    pub trace: bool,
    pub extended_time: bool,
    pub threat_authority: u8,
    pub activation: u32,
    pub expiry: u32,
    pub absentee_days: u16,
    pub most_wrong_tries: u8,
    pub first_rights: RightsId,
    pub second_rights: RightsId,
}

// The fields of a point's state record. Its times stay as they were where nothing is locked, failed or waited for: document 01's bytes keep them.
#[derive(Clone, Copy)]
pub struct PointState {
    pub tag: u32,
    pub failures: u8,
    pub locked: bool,
    pub lock_time: u32,
    pub first_failure: u32,
    pub waiting_credential: CredentialId,
    pub waiting_since: u32,
}

// The fields of a credential's state record.
#[derive(Clone, Copy)]
pub struct CredentialState {
    pub uses: u16,
    pub days: u16,
    pub last_use: u32,
    pub zone: ZoneId,
    pub entered: u32,
    pub last_event: u16,
    pub disable: u8,
    pub wrong_tries: u8,
    pub last_point: PointId,
    pub last_grant: u32,
}

// A journal entry of 24 bytes; `spare` is bytes 2 and 3.
#[derive(Clone, Copy)]
pub struct Entry {
    pub operation: u8,
    pub argument: u8,
    pub spare: u16,
    pub time: u32,
    pub instance: u32,
    pub amount: u32,
    pub value: [u8; 8],
}

// What an entry asks for.
#[derive(Clone, Copy)]
pub enum Operation {
    Factor,
    SetCount,
    AdjustCount,
    SetDisable,
    SetService,
}

// An answer of 16 bytes.
#[derive(Clone, Copy)]
pub struct Answer {
    pub event: u16,
    pub marks: u8,
    pub refusal: u8,
    pub tag: u32,
    pub credential: CredentialId,
    pub count: u32,
}

// All that the order of checks looks at, but for the rules: the point, its zones, the disable of the factor that was read, where one matched, and its
// credential. The entry stays beside it, as in the definitions: many functions ask of the situation alone.
#[derive(Clone, Copy)]
pub struct Situation {
    pub point: Point,
    pub point_state: PointState,
    pub zone_to: Zone,
    pub count_to: u32,
    pub zone_from: Zone,
    pub count_from: u32,
    pub factor_disable: Option<u8>,
    pub number: CredentialId,
    pub credential: Credential,
    pub credential_state: CredentialState,
}

// What the rules of a credential say at a point and a time (step 9).
#[derive(Clone, Copy, Default)]
pub struct Verdict {
    pub negative_fits: bool,
    pub positive_fits: bool,
    pub positive_located: bool,
}

// What steps 1 to 4 find; of a disabled factor its event.
#[derive(Clone, Copy)]
pub struct Authentication {
    pub locked: bool,
    pub overdue: bool,
    pub error: bool,
    pub unmatched: bool,
    pub waiting: bool,
    pub disabled: Option<u16>,
    pub first_of_two: bool,
}

// What step 5 finds.
#[derive(Clone, Copy)]
pub struct Validity {
    pub not_yet_active: bool,
    pub expired: bool,
    pub disabled: bool,
    pub manual_disable: bool,
    pub lockout: bool,
    pub no_days: bool,
    pub no_uses: bool,
    pub inactive: bool,
}

// What steps 7 to 10 find.
#[derive(Clone, Copy)]
pub struct Authorization {
    pub deny_all: bool,
    pub threat: bool,
    pub negative: bool,
    pub no_positive: bool,
    pub positive_located: bool,
    pub into_zone: bool,
    pub hard_passback: bool,
    pub at_lower_limit: bool,
    pub at_upper_limit: bool,
}

// A state record that an entry writes: whose it is, and what it holds. A zone's holds its count.
#[derive(Clone, Copy)]
pub struct Write<I, S> {
    pub instance: I,
    pub state: S,
}

// What an entry does: its answer, and the state records that it writes.
#[derive(Clone, Copy)]
pub struct Outcome {
    pub answer: Answer,
    pub point: Option<Write<PointId, PointState>>,
    pub credential: Option<Write<CredentialId, CredentialState>>,
    pub zone_to: Option<Write<ZoneId, u32>>,
    pub zone_from: Option<Write<ZoneId, u32>>,
}

// Why an entry is refused in its own answer, each by its number of document 01.
#[derive(Clone, Copy, PartialEq, Eq)]
pub enum EntryRefusal {
    Form = 7,
    NoObject = 8,
    Count = 9,
}

// Why a call turns its input back, each by its number of document 01.
#[derive(Clone, Copy, PartialEq, Eq)]
pub enum Refusal {
    SiteLength = 1,
    SiteField = 2,
    SiteTwice = 3,
    SiteMissing = 4,
    StateLength = 5,
    StateForm = 6,
    JournalLength = 10,
    AnswersLength = 11,
}

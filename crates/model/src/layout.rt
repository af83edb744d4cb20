// Where the fields of records, entries and answers stand: offsets in bytes from the record's own start. A field is as wide as the number that it is read to.
// A flag is a bit of the flags, bit 0 the lowest; FLAGS_END is one above the largest value of the named ones. A run of spare bytes has an offset and a size,
// as `clear` takes them. Bits stay numbers, as the numbers of numbers.rt do.

// Every site record.
pub const KIND: usize = 0;

pub const FLAGS: usize = 1;

pub const INSTANCE: usize = 4;

// A zone's site record.
pub const ZONE_FLAG_COUNTING: u8 = 0;

pub const ZONE_FLAGS_END: u8 = 2;

pub const ZONE_PASSBACK: usize = 2;

pub const ZONE_SPARE_BYTE: usize = 3;

pub const ZONE_UPPER_LIMIT: usize = 8;

pub const ZONE_LOWER_LIMIT: usize = 12;

pub const ZONE_PASSBACK_TIMEOUT: usize = 16;

pub const ZONE_SPARE: usize = 20;

pub const ZONE_SPARE_SIZE: usize = 12;

// A point's site record.
pub const POINT_FLAG_OUT_OF_SERVICE: u8 = 0;

pub const POINT_FLAG_UPPER_ENFORCED: u8 = 1;

pub const POINT_FLAG_LOWER_ENFORCED: u8 = 2;

pub const POINT_FLAG_COUNT_ADJUST: u8 = 3;

pub const POINT_FLAG_MUSTER: u8 = 4;

pub const POINT_FLAGS_END: u8 = 32;

pub const POINT_MODE: usize = 2;

pub const POINT_FACTORS_WANTED: usize = 3;

pub const POINT_ZONE_TO: usize = 8;

pub const POINT_ZONE_FROM: usize = 12;

pub const POINT_THREAT_LEVEL: usize = 16;

pub const POINT_MOST_FAILURES: usize = 17;

pub const POINT_FACTOR_TIMEOUT: usize = 18;

pub const POINT_LOCKOUT_RELINQUISH: usize = 20;

pub const POINT_FAILURE_WINDOW: usize = 24;

pub const POINT_SPARE: usize = 28;

pub const POINT_SPARE_SIZE: usize = 4;

// A rule's site record.
pub const RULE_FLAG_ENABLED: u8 = 0;

pub const RULE_FLAG_NEGATIVE: u8 = 1;

pub const RULE_FLAG_ALWAYS: u8 = 2;

pub const RULE_FLAG_EVERYWHERE: u8 = 3;

pub const RULE_FLAGS_END: u8 = 16;

pub const RULE_LOCATION_KIND: usize = 2;

pub const RULE_DAYS: usize = 3;

pub const RULE_DAYS_END: u8 = 128;

pub const RULE_LOCATION: usize = 8;

pub const RULE_FROM: usize = 12;

pub const RULE_TO: usize = 14;

pub const RULE_SPARE: usize = 16;

pub const RULE_SPARE_SIZE: usize = 16;

// A rule's days: each is a bit, bit 0 the lowest.
pub const RULE_DAY_MONDAY: u8 = 0;

pub const RULE_DAY_TUESDAY: u8 = 1;

pub const RULE_DAY_WEDNESDAY: u8 = 2;

pub const RULE_DAY_THURSDAY: u8 = 3;

pub const RULE_DAY_FRIDAY: u8 = 4;

pub const RULE_DAY_SATURDAY: u8 = 5;

pub const RULE_DAY_SUNDAY: u8 = 6;

// A credential's site record.
pub const CREDENTIAL_FLAG_MASTER: u8 = 0;

pub const CREDENTIAL_FLAG_PASSBACK_EXEMPT: u8 = 1;

pub const CREDENTIAL_FLAG_OCCUPANCY_EXEMPT: u8 = 2;

pub const CREDENTIAL_FLAG_TRACE: u8 = 3;

pub const CREDENTIAL_FLAG_EXTENDED_TIME: u8 = 4;

pub const CREDENTIAL_FLAGS_END: u8 = 32;

pub const CREDENTIAL_DISABLE: usize = 2;

pub const CREDENTIAL_THREAT_AUTHORITY: usize = 3;

pub const CREDENTIAL_ACTIVATION: usize = 8;

pub const CREDENTIAL_EXPIRY: usize = 12;

pub const CREDENTIAL_USES: usize = 16;

pub const CREDENTIAL_DAYS: usize = 18;

pub const CREDENTIAL_ABSENTEE_DAYS: usize = 20;

pub const CREDENTIAL_MOST_WRONG_TRIES: usize = 22;

pub const CREDENTIAL_SPARE_BYTE: usize = 23;

pub const CREDENTIAL_FIRST_RIGHTS: usize = 24;

pub const CREDENTIAL_SECOND_RIGHTS: usize = 28;

// A factor's site record. It has no flags.
pub const FACTOR_ROLE: usize = 2;

pub const FACTOR_DISABLE: usize = 3;

pub const FACTOR_FORMAT: usize = 8;

pub const FACTOR_FORMAT_SPARE: usize = 9;

pub const FACTOR_FORMAT_SPARE_SIZE: usize = 7;

pub const FACTOR_VALUE: usize = 16;

pub const FACTOR_SPARE: usize = 24;

pub const FACTOR_SPARE_SIZE: usize = 8;

// A zone's state record.
pub const ZONE_STATE_COUNT: usize = 0;

pub const ZONE_STATE_SPARE: usize = 4;

pub const ZONE_STATE_SPARE_SIZE: usize = 28;

// A point's state record.
pub const POINT_STATE_TAG: usize = 0;

pub const POINT_STATE_FAILURES: usize = 4;

pub const POINT_STATE_LOCKED: usize = 5;

pub const POINT_STATE_LOCKED_SPARE: usize = 6;

pub const POINT_STATE_LOCKED_SPARE_SIZE: usize = 2;

pub const POINT_STATE_LOCK_TIME: usize = 8;

pub const POINT_STATE_FIRST_FAILURE: usize = 12;

pub const POINT_STATE_WAITING_CREDENTIAL: usize = 16;

pub const POINT_STATE_WAITING_SINCE: usize = 20;

pub const POINT_STATE_SPARE: usize = 24;

pub const POINT_STATE_SPARE_SIZE: usize = 8;

// A credential's state record.
pub const CREDENTIAL_STATE_USES: usize = 0;

pub const CREDENTIAL_STATE_DAYS: usize = 2;

pub const CREDENTIAL_STATE_LAST_USE: usize = 4;

pub const CREDENTIAL_STATE_ZONE: usize = 8;

pub const CREDENTIAL_STATE_ENTERED: usize = 12;

pub const CREDENTIAL_STATE_LAST_EVENT: usize = 16;

pub const CREDENTIAL_STATE_DISABLE: usize = 18;

pub const CREDENTIAL_STATE_WRONG_TRIES: usize = 19;

pub const CREDENTIAL_STATE_LAST_POINT: usize = 20;

pub const CREDENTIAL_STATE_LAST_GRANT: usize = 24;

pub const CREDENTIAL_STATE_SPARE: usize = 28;

pub const CREDENTIAL_STATE_SPARE_SIZE: usize = 4;

// An entry.
pub const ENTRY_OPERATION: usize = 0;

pub const ENTRY_ARGUMENT: usize = 1;

pub const ENTRY_SPARE: usize = 2;

pub const ENTRY_TIME: usize = 4;

pub const ENTRY_INSTANCE: usize = 8;

pub const ENTRY_AMOUNT: usize = 12;

pub const ENTRY_VALUE: usize = 16;

// An answer.
pub const ANSWER_EVENT: usize = 0;

pub const ANSWER_MARKS: usize = 2;

pub const ANSWER_REFUSAL: usize = 3;

pub const ANSWER_TAG: usize = 4;

pub const ANSWER_CREDENTIAL: usize = 8;

pub const ANSWER_COUNT: usize = 12;

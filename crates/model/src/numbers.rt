// The numbers of document 01, by the names that BACnet (source 002) gives them; the engine uses most of them. The definitions' are in specs/Numbers.antt.
// They stay numbers, and are no enums or Options: a byte of a record or an entry holds any of 256 until it is checked, the definitions and contracts speak
// of the number that stands there, and the macros of the C header are made of these lines.

// No instance; a time that never was, or the end of time; no limit of uses, days or absentee days.
pub const NONE: u32 = 4194303;

pub const NEVER: u32 = 4294967295;

pub const UNLIMITED: u16 = 65535;

// Bytes of a record of site or state, of an entry and of an answer; the most bytes of a site and of a journal.
pub const RECORD_SIZE: usize = 32;

pub const LARGEST_SITE: usize = 64000;

pub const ENTRY_SIZE: usize = 24;

pub const ANSWER_SIZE: usize = 16;

pub const LARGEST_JOURNAL: usize = 65520;

// The largest count.
pub const LARGEST_COUNT: u32 = 4294967295;

// One above the largest number of four bytes, by which tags turn over.
pub const MODULUS: u64 = 4294967296;

pub const SECONDS_OF_MINUTE: u32 = 60;

// The end of a day: the largest minute of a rule.
pub const MINUTES_OF_DAY: u32 = 1440;

pub const SECONDS_OF_DAY: u32 = 86400;

pub const DAYS_OF_WEEK: u32 = 7;

// Kinds of records.
pub const ACCESS_ZONE: u8 = 1;

pub const ACCESS_POINT: u8 = 2;

pub const ACCESS_RULE: u8 = 3;

pub const ACCESS_CREDENTIAL: u8 = 4;

pub const AUTHENTICATION_FACTOR: u8 = 5;

// Kinds of a rule's location: those of zone and point, and that of a rule for everywhere.
pub const LOCATION_EVERYWHERE: u8 = 0;

pub const LOCATION_ZONE: u8 = 1;

pub const LOCATION_POINT: u8 = 2;

// Roles of factors.
pub const ROLE_IDENTIFYING: u8 = 1;

pub const ROLE_CONFIRMING: u8 = 2;

// Fields of records and entries.
pub const LARGEST_THREAT: u8 = 100;

pub const PASSBACK_OFF: u8 = 0;

pub const PASSBACK_HARD: u8 = 1;

pub const PASSBACK_SOFT: u8 = 2;

pub const MODE_AUTHORIZE: u8 = 0;

pub const MODE_GRANT_ACTIVE: u8 = 1;

pub const MODE_DENY_ALL: u8 = 2;

pub const ONE_FACTOR: u8 = 1;

pub const TWO_FACTORS: u8 = 2;

pub const DISABLE_NONE: u8 = 0;

pub const DISABLE_DISABLED: u8 = 1;

pub const DISABLE_MANUAL: u8 = 2;

pub const DISABLE_LOCKOUT: u8 = 3;

pub const FACTOR_DISABLE_NONE: u8 = 0;

pub const FACTOR_DISABLED: u8 = 1;

pub const FACTOR_LOST: u8 = 2;

pub const FACTOR_STOLEN: u8 = 3;

pub const FACTOR_DAMAGED: u8 = 4;

pub const FACTOR_DESTROYED: u8 = 5;

pub const FORMAT_ERROR: u8 = 1;

// Events.
pub const NO_EVENT: u16 = 0;

pub const GRANTED: u16 = 1;

pub const LOCKOUT_OTHER: u16 = 7;

pub const LOCKOUT_RELINQUISHED: u16 = 8;

pub const DENIED_DENY_ALL: u16 = 128;

pub const DENIED_UNKNOWN_CREDENTIAL: u16 = 129;

pub const DENIED_AUTHENTICATION_FACTOR_TIMEOUT: u16 = 131;

pub const DENIED_INCORRECT_AUTHENTICATION_FACTOR: u16 = 132;

pub const DENIED_ZONE_NO_ACCESS_RIGHTS: u16 = 133;

pub const DENIED_POINT_NO_ACCESS_RIGHTS: u16 = 134;

pub const DENIED_NO_ACCESS_RIGHTS: u16 = 135;

pub const DENIED_OUT_OF_TIME_RANGE: u16 = 136;

pub const DENIED_THREAT_LEVEL: u16 = 137;

pub const DENIED_PASSBACK: u16 = 138;

pub const DENIED_LOWER_OCCUPANCY_LIMIT: u16 = 141;

pub const DENIED_UPPER_OCCUPANCY_LIMIT: u16 = 142;

pub const DENIED_AUTHENTICATION_FACTOR_LOST: u16 = 143;

pub const DENIED_AUTHENTICATION_FACTOR_STOLEN: u16 = 144;

pub const DENIED_AUTHENTICATION_FACTOR_DAMAGED: u16 = 145;

pub const DENIED_AUTHENTICATION_FACTOR_DESTROYED: u16 = 146;

pub const DENIED_AUTHENTICATION_FACTOR_DISABLED: u16 = 147;

pub const DENIED_AUTHENTICATION_FACTOR_ERROR: u16 = 148;

pub const DENIED_CREDENTIAL_NOT_YET_ACTIVE: u16 = 151;

pub const DENIED_CREDENTIAL_EXPIRED: u16 = 152;

pub const DENIED_CREDENTIAL_MANUAL_DISABLE: u16 = 153;

pub const DENIED_CREDENTIAL_LOCKOUT: u16 = 154;

pub const DENIED_CREDENTIAL_MAX_DAYS: u16 = 155;

pub const DENIED_CREDENTIAL_MAX_USES: u16 = 156;

pub const DENIED_CREDENTIAL_INACTIVITY: u16 = 157;

pub const DENIED_CREDENTIAL_DISABLED: u16 = 158;

pub const DENIED_LOCKOUT: u16 = 161;

pub const DENIED_OTHER: u16 = 164;

// The refusal of an answer that refuses nothing.
pub const NOT_REFUSED: u8 = 0;

// Marks of an answer.
pub const MARK_FACTOR_READ: u8 = 1;

pub const MARK_TRACE: u8 = 2;

pub const MARK_PASSBACK_DETECTED: u8 = 4;

pub const MARK_MUSTER: u8 = 8;

pub const MARK_LOCKOUT_MAX_ATTEMPTS: u8 = 16;

pub const MARK_EXTENDED_UNLOCK: u8 = 32;

pub const MARK_LOCKOUT_RELINQUISHED: u8 = 64;

// Amounts from here on are negative.
pub const FIRST_NEGATIVE: u32 = 2147483648;

// Operations.
pub const OPERATION_FACTOR: u8 = 1;

pub const OPERATION_SET_COUNT: u8 = 2;

pub const OPERATION_ADJUST_COUNT: u8 = 3;

pub const OPERATION_SET_DISABLE: u8 = 4;

pub const OPERATION_SET_SERVICE: u8 = 5;

// Their arguments.
pub const FORMAT_UNDEFINED: u8 = 0;

pub const LARGEST_DISABLE: u8 = 3;

pub const ARGUMENT_UNLOCK: u8 = 0;

pub const ARGUMENT_LOCK: u8 = 1;

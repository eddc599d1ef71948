//! The numbers of the operations: X.711, section 7.

/// m-EventReport.
pub const M_EVENT_REPORT: i64 = 0;

/// m-EventReport-Confirmed.
pub const M_EVENT_REPORT_CONFIRMED: i64 = 1;

/// m-Get.
pub const M_GET: i64 = 3;

/// m-Set.
pub const M_SET: i64 = 4;

/// m-Set-Confirmed.
pub const M_SET_CONFIRMED: i64 = 5;

/// m-Action.
pub const M_ACTION: i64 = 6;

/// m-Action-Confirmed.
pub const M_ACTION_CONFIRMED: i64 = 7;

/// m-Create.
pub const M_CREATE: i64 = 8;

/// m-Delete.
pub const M_DELETE: i64 = 9;

/// m-Cancel-Get-Confirmed.
pub const M_CANCEL_GET: i64 = 10;

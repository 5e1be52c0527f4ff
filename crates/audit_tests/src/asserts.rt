// Assertions as calls: `assert_eq!` writes its formatting anew at each place, and each is proved.
use std::fmt::Debug;
use std::process::Abort;

/// Ends the test where the two differ, and tells both and the case.
pub fn same_at<T: PartialEq + Debug, C: Debug>(rt: &impl Abort, told: &T, wanted: &T, case: &C) {
    assert_eq!(rt; told, wanted, "{case:?}");
}

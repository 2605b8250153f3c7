/// Lets go of a value, in a call of its own. A function that lets go of an enum itself is proved
/// variant by variant, at each of its ends.
pub fn let_go<T: Drop>(_value: T) {}

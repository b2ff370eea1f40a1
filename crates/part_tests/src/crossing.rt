// What all that crosses to other threads is lent to.

// That a value may be handed to another thread, and lent to several.
pub fn crosses<T: Send + Sync>(_value: &T) {}

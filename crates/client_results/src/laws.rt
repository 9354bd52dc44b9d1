//! Laws of client and server, each the contract of a function that does nothing.

ghost use Rattle.client_results.specs.Requests.{RequestsAreAnswered};

/// The bytes of a request are one call to a server that is bound; what it answers is what the method comes to with these
/// parameters on its registry, and the bytes of the answer are read as these very results.
pub fn requests_are_answered()
    ensures { RequestsAreAnswered }
{}

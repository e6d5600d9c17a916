// Laws of all requests.
ghost use Rattle.journal_treeserver.specs.Short.{NoReplyIsLong, ResultsAreAnswers};

use journal_treewire::answers_are_bounded;

/// The definitions answer a request by no reply that is longer than one may be. So where the
/// history is trusted, each call that is committed has the results of its reply, and none becomes
/// SERVERFAULT for its length.
pub fn replies_are_short()
    ensures short { NoReplyIsLong }
    ensures answers { ResultsAreAnswers }
{
    answers_are_bounded();
}

//! The names of the messages.

ghost use Rattle.std.specs.Prelude.{◌≡◌, MatchOption, None, Some};
ghost use Rattle.sv2_messages.specs.Tables.{name_of};

use crate::kinds;

/// The name of the message of this kind, in all three tables.
#[tactic(auto, unfolding(crate::specs::Tables::name_of))]
pub fn name_of(kind: u8) -> Option<&'static str>
    ensures { MatchOption result (name_of kind ≡ None) (λ name. name_of kind ≡ Some name.now) }
{
    match kind {
        kinds::SETUP_CONNECTION => Some("SetupConnection"),
        kinds::SETUP_CONNECTION_SUCCESS => Some("SetupConnection.Success"),
        kinds::SETUP_CONNECTION_ERROR => Some("SetupConnection.Error"),
        kinds::OPEN_STANDARD_MINING_CHANNEL => Some("OpenStandardMiningChannel"),
        kinds::OPEN_STANDARD_MINING_CHANNEL_SUCCESS => Some("OpenStandardMiningChannel.Success"),
        kinds::OPEN_MINING_CHANNEL_ERROR => Some("OpenMiningChannel.Error"),
        kinds::OPEN_EXTENDED_MINING_CHANNEL => Some("OpenExtendedMiningChannel"),
        kinds::OPEN_EXTENDED_MINING_CHANNEL_SUCCESS => Some("OpenExtendedMiningChannel.Success"),
        kinds::NEW_MINING_JOB => Some("NewMiningJob"),
        kinds::UPDATE_CHANNEL => Some("UpdateChannel"),
        kinds::UPDATE_CHANNEL_ERROR => Some("UpdateChannel.Error"),
        kinds::CLOSE_CHANNEL => Some("CloseChannel"),
        kinds::SET_EXTRANONCE_PREFIX => Some("SetExtranoncePrefix"),
        kinds::SUBMIT_SHARES_STANDARD => Some("SubmitSharesStandard"),
        kinds::SUBMIT_SHARES_EXTENDED => Some("SubmitSharesExtended"),
        kinds::SUBMIT_SHARES_SUCCESS => Some("SubmitShares.Success"),
        kinds::SUBMIT_SHARES_ERROR => Some("SubmitShares.Error"),
        kinds::NEW_EXTENDED_MINING_JOB => Some("NewExtendedMiningJob"),
        kinds::MINING_SET_NEW_PREV_HASH => Some("SetNewPrevHash"),
        kinds::SET_TARGET => Some("SetTarget"),
        kinds::SET_CUSTOM_MINING_JOB => Some("SetCustomMiningJob"),
        kinds::SET_CUSTOM_MINING_JOB_SUCCESS => Some("SetCustomMiningJob.Success"),
        kinds::SET_CUSTOM_MINING_JOB_ERROR => Some("SetCustomMiningJob.Error"),
        kinds::COINBASE_OUTPUT_CONSTRAINTS => Some("CoinbaseOutputConstraints"),
        kinds::NEW_TEMPLATE => Some("NewTemplate"),
        kinds::TEMPLATE_SET_NEW_PREV_HASH => Some("SetNewPrevHash"),
        kinds::REQUEST_TRANSACTION_DATA => Some("RequestTransactionData"),
        kinds::REQUEST_TRANSACTION_DATA_SUCCESS => Some("RequestTransactionData.Success"),
        kinds::REQUEST_TRANSACTION_DATA_ERROR => Some("RequestTransactionData.Error"),
        kinds::SUBMIT_SOLUTION => Some("SubmitSolution"),
        kinds::ALLOCATE_MINING_JOB_TOKEN => Some("AllocateMiningJobToken"),
        kinds::ALLOCATE_MINING_JOB_TOKEN_SUCCESS => Some("AllocateMiningJobToken.Success"),
        kinds::PROVIDE_MISSING_TRANSACTIONS => Some("ProvideMissingTransactions"),
        kinds::PROVIDE_MISSING_TRANSACTIONS_SUCCESS => Some("ProvideMissingTransactions.Success"),
        kinds::DECLARE_MINING_JOB => Some("DeclareMiningJob"),
        kinds::DECLARE_MINING_JOB_SUCCESS => Some("DeclareMiningJob.Success"),
        kinds::DECLARE_MINING_JOB_ERROR => Some("DeclareMiningJob.Error"),
        kinds::PUSH_SOLUTION => Some("PushSolution"),
        _ => None,
    }
}

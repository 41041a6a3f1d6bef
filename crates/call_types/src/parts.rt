//! What a call names, and the bytes that it carries.

ghost use Rattle.std.specs.Prelude.{◌≡◌, [], option_map, unwrap_or};
ghost use Rattle.call_types.specs.Calls.{env_of};
ghost use Rattle.call_types.specs.Calls as spec;

use crate::Call;
use arn_ids::{EnvNo, FnNo};
use bytes::Bytes;

impl Call {
    /// Whether the call is an Invoke of a caller.
    pub fn is_invoke(&self) -> bool
        ensures { result ≡ spec.is_invoke self.now }
    {
        match self {
            Call::Invoke { .. } => true,
            _ => false,
        }
    }

    /// Returns the function that an Invoke names, or `None` for every other call.
    pub fn function(&self) -> Option<FnNo>
        ensures { result ≡ spec.invoked self.now }
    {
        match self {
            Call::Invoke { function, .. } => Some(*function),
            _ => None,
        }
    }

    /// Returns the environment that the call names, or `None` if it names none.
    pub fn environment(&self) -> Option<EnvNo>
        ensures { result ≡ env_of self.now }
    {
        match self {
            Call::RuntimeNext { env } => Some(*env),
            Call::Response { env, .. } => Some(*env),
            Call::ResponseTooLarge { env, .. } => Some(*env),
            Call::Failure { env, .. } => Some(*env),
            Call::InitFailure { env, .. } => Some(*env),
            Call::Register { env, .. } => Some(*env),
            Call::ExtNext { env, .. } => Some(*env),
            Call::ExtInitFailure { env, .. } => Some(*env),
            Call::ExtExitFailure { env, .. } => Some(*env),
            Call::Spindown { env } => Some(*env),
            Call::Expire { env } => Some(*env),
            _ => None,
        }
    }

    /// Returns the call's payload, output or report, or `None` if it carries none.
    pub fn body(&self) -> Option<&Bytes>
        ensures { unwrap_or (option_map (λ body. body.now) result) [] ≡ spec.body_of self.now }
    {
        match self {
            Call::Invoke { body, .. } => Some(body),
            Call::Response { body, .. } => Some(body),
            Call::Failure { body, .. } => Some(body),
            Call::InitFailure { body, .. } => Some(body),
            Call::ExtInitFailure { body, .. } => Some(body),
            Call::ExtExitFailure { body, .. } => Some(body),
            _ => None,
        }
    }
}

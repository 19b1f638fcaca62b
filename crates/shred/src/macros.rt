//! Trees, written down.

/// A `Par` of these trees, each put beside those before it by `with`, from left to right: `par![alloc; a, b,]`. The first
/// refusal is the answer, and no tree after it is evaluated.
#[macro_export]
macro_rules! par {
    ($alloc:expr; $head:expr $(, $tail:expr)* $(,)?) => {
        $crate::par_with!($alloc; $crate::single($head); $($tail),*)
    };
}

/// Goes on with the trees that are left, where the `Par` so far was made. It is there for `par!`.
#[macro_export]
macro_rules! par_with {
    ($alloc:expr; $so_far:expr;) => {
        $so_far
    };
    ($alloc:expr; $so_far:expr; $next:expr $(, $rest:expr)*) => {
        $crate::par_with!(
            $alloc;
            match $so_far {
                Ok(so_far) => so_far.with($alloc, $next),
                Err(refused) => Err(refused),
            };
            $($rest),*
        )
    };
}

/// A `Seq` of these trees, in order: `seq![a, b,]`.
#[macro_export]
macro_rules! seq {
    ($head:expr $(, $tail:expr)* $(,)?) => {
        $crate::Seq::new($head)$(.with($tail))*
    };
}

//! Laws of the tables of routes: a function that does nothing, whose contract is proved.

ghost use Rattle.std.specs.Prelude.{◌≡◌, Some, length};
ghost use Rattle.http_routes.specs.Routes.{environment_table, environment_rows, environment_path};
ghost use Rattle.http_routes.specs.Routes.{account_table, account_rows, account_path, route_in};
ghost use Rattle.http_routes.specs.declared.routes.AccountRoute.{AccountRoute};
ghost use Rattle.http_routes.specs.declared.routes.EnvironmentRoute.{EnvironmentRoute};

/// The tables are complete: a path leads to each route. Each row of a table is a row of its router.
pub fn routes()
    ensures environment_routes { (route : EnvironmentRoute)
        → route_in environment_rows (environment_path route) ≡ Some route }
    ensures account_routes { (route : AccountRoute) → route_in account_rows (account_path route) ≡ Some route }
    ensures environment_rows { length environment_rows ≡ length environment_table }
    ensures account_rows { length account_rows ≡ length account_table }
{}
